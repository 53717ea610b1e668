//! Scripts of which each run is the same, with the journal of that run.

/// A script by its name.
#[derive(Drop)]
pub(crate) struct Example {
    pub(crate) name: &'static str,
    pub(crate) text: &'static str,
    pub(crate) journal: &'static str,
}

pub(crate) const THREE_SENDS: Example = Example {
    name: "three sends",
    text: "channel c; process a { sync send c (1); sync send c (2); sync send c (3); } process b { loop 3 { x <- sync recv c; print x; } }",
    journal: "1 a.0.0 -> b.0.0 c (1)\n2 a.1.0 -> b.1.0 c (2)\n3 a.2.0 -> b.2.0 c (3)\n",
};

pub(crate) const CLIENT_SERVER: Example = Example {
    name: "client and server",
    text: "channel rep; channel req; channel go; process client { x <- sync choose [nack n { sync send req (rep, n); } recv rep, recv go]; print x; } process server { r, n <- sync recv req; sync send go (9); k <- sync choose [wrap send r (7) to (1), wrap cancelled n to (2)]; print k; }",
    journal: "1 client.0.0 -> server.0.0 req (#rep, !client.0)\n2 server.1.0 -> client.1.1 go (9)\n3 server.2.1 cancelled client.0\n",
};

pub(crate) const NESTED_NACKS: Example = Example {
    name: "nested nacks",
    text: "channel w; channel v; channel u; channel c; process a { sync nack m { sync send w (m); } choose [nack n { sync send v (n); } recv c, always ()]; } process p { m <- sync recv w; sync cancelled m; } process q { n <- sync recv v; sync send u (n); sync cancelled n; } process r { n <- sync recv u; sync cancelled n; }",
    journal: "1 a.0.0 -> p.0.0 w (!a.0)\n2 a.1.0 -> q.0.0 v (!a.1)\n3 a.2.1 always ()\n3 q.1.0 -> r.0.0 u (!a.1)\n4 q.2.0 cancelled a.1\n4 r.1.0 cancelled a.1\n",
};

pub(crate) const STARTS: Example = Example {
    name: "starts and ends",
    text: "channel c; process one { x <- sync recv c; print x; } process two { spawn one; sync send c (7); } process main { sync always (); spawn two; sync joined one; sync joined two; }",
    journal: "1 main.0.0 always ()\n2 two.0.0 -> one.0.0 c (7)\n3 main.1.0 joined one\n4 main.2.0 joined two\n",
};

/// The second line ends without its semicolon.
pub(crate) const WITH_A_FAULT: &str =
    "channel c;\nprocess a { sync send c (1) }\nprocess b { x <- sync recv c; print x; }\n";

/// The second line names the message's sender twice.
pub(crate) const WITH_A_BAD_LINE: &str =
    "1 client.0.0 -> server.0.0 req (#rep, !client.0)\n2 server.1.0 server -> client.1.1 go (9)\n";

/// The most syncs of a process.
pub(crate) const ROWS: u16 = 256;
