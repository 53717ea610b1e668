//! Scripts of which each run prints the same.

/// A script with what its run prints: the journal, and the lines behind it.
pub(super) struct Example {
    pub(super) name: &'static str,
    pub(super) rows: &'static str,
    pub(super) script: &'static str,
    pub(super) journal: &'static str,
    pub(super) ends: &'static str,
}

/// Examples without a commit.
pub(super) const WITHOUT_COMMITS: [Example; 3] = [
    Example {
        name: "no process",
        rows: "256",
        script: "",
        journal: "",
        ends: "commits 0 tail 0\n",
    },
    Example {
        name: "a sync that could only meet itself",
        rows: "256",
        script: "channel c; process a { sync choose [send c (1), recv c]; }",
        journal: "",
        ends: "a waiting\ncommits 0 tail 0\n",
    },
    Example {
        name: "a sum that is too large",
        rows: "256",
        script: "process a { let x = 4294967295; let y = x + 1; }",
        journal: "",
        ends: "a faulted range\ncommits 0 tail 0\n",
    },
];

/// Examples with commits, all of which the workers make themselves.
pub(super) const EXAMPLES: [Example; 15] = [
    Example {
        name: "one send",
        rows: "256",
        script: "channel c; process a { sync send c (42); } process b { x <- sync recv c; print x; }",
        journal: "1 a.0.0 -> b.0.0 c (42)\n",
        ends: "a ended\nb ended 42\ncommits 1 tail 0\n",
    },
    Example {
        name: "three sends",
        rows: "256",
        script: "channel c; process a { sync send c (1); sync send c (2); sync send c (3); } process b { loop 3 { x <- sync recv c; print x; } }",
        journal: "1 a.0.0 -> b.0.0 c (1)\n2 a.1.0 -> b.1.0 c (2)\n3 a.2.0 -> b.2.0 c (3)\n",
        ends: "a ended\nb ended 1 2 3\ncommits 3 tail 0\n",
    },
    Example {
        name: "three sends, in one row a process",
        rows: "1",
        script: "channel c; process a { sync send c (1); sync send c (2); sync send c (3); } process b { loop 3 { x <- sync recv c; print x; } }",
        journal: "1 a.0.0 -> b.0.0 c (1)\n",
        ends: "a spent\nb spent 1\ncommits 1 tail 0\n",
    },
    Example {
        name: "a number handed on",
        rows: "256",
        script: "channel c; channel d; process a { sync send c (5); } process b { x <- sync recv c; sync send d (x + 1); } process e { y <- sync recv d; print y; }",
        journal: "1 a.0.0 -> b.0.0 c (5)\n2 b.1.0 -> e.0.0 d (6)\n",
        ends: "a ended\nb ended\ne ended 6\ncommits 2 tail 0\n",
    },
    Example {
        name: "two pairs",
        rows: "256",
        script: TWO_PAIRS,
        journal: "1 a.0.0 -> b.0.0 c (1)\n1 f.0.0 -> g.0.0 d (2)\n",
        ends: "a ended\nb ended\nf ended\ng ended\ncommits 2 tail 0\n",
    },
    Example {
        name: "a request that is cancelled",
        rows: "256",
        script: "channel rep; channel req; channel go; process client { x <- sync choose [nack n { sync send req (rep, n); } recv rep, recv go]; print x; } process server { r, n <- sync recv req; sync send go (9); k <- sync choose [wrap send r (7) to (1), wrap cancelled n to (2)]; print k; }",
        journal: "1 client.0.0 -> server.0.0 req (#rep, !client.0)\n2 server.1.0 -> client.1.1 go (9)\n3 server.2.1 cancelled client.0\n",
        ends: "client ended 9\nserver ended 2\ncommits 3 tail 0\n",
    },
    Example {
        name: "a request that is answered",
        rows: "256",
        script: "channel rep; channel req; channel go; process client { x <- sync choose [nack n { sync send req (rep, n); } recv rep, recv go]; print x; } process server { r, n <- sync recv req; k <- sync choose [wrap send r (7) to (1), wrap cancelled n to (2)]; print k; }",
        journal: "1 client.0.0 -> server.0.0 req (#rep, !client.0)\n2 server.1.0 -> client.1.0 rep (7)\n",
        ends: "client ended 7\nserver ended 1\ncommits 2 tail 0\n",
    },
    Example {
        name: "nested nacks",
        rows: "256",
        script: "channel w; channel v; channel u; channel c; process a { sync nack m { sync send w (m); } choose [nack n { sync send v (n); } recv c, always ()]; } process p { m <- sync recv w; sync cancelled m; } process q { n <- sync recv v; sync send u (n); sync cancelled n; } process r { n <- sync recv u; sync cancelled n; }",
        journal: "1 a.0.0 -> p.0.0 w (!a.0)\n2 a.1.0 -> q.0.0 v (!a.1)\n3 a.2.1 always ()\n3 q.1.0 -> r.0.0 u (!a.1)\n4 q.2.0 cancelled a.1\n4 r.1.0 cancelled a.1\n",
        ends: "a ended\np waiting\nq ended\nr ended\ncommits 6 tail 0\n",
    },
    Example {
        name: "no end, in three rows",
        rows: "3",
        script: "process a { forever { sync always (); } }",
        journal: "1 a.0.0 always ()\n2 a.1.0 always ()\n3 a.2.0 always ()\n",
        ends: "a spent\ncommits 3 tail 0\n",
    },
    Example {
        name: "a message of another length",
        rows: "256",
        script: "process a { x, y <- sync always (1); }",
        journal: "1 a.0.0 always (1)\n",
        ends: "a faulted shape\ncommits 1 tail 0\n",
    },
    Example {
        name: "a guard that counts",
        rows: "256",
        script: "process a { let k = 0; loop 2 { x <- sync guard { let k = k + 1; } always (k); print x; } }",
        journal: "1 a.0.0 always (1)\n2 a.1.0 always (2)\n",
        ends: "a ended 1 2\ncommits 2 tail 0\n",
    },
    Example {
        name: "a wrap within a wrap",
        rows: "256",
        script: "process a { x <- sync wrap wrap always (3) as p to (p + 1) as q to (q + q); print x; }",
        journal: "1 a.0.0 always (3)\n",
        ends: "a ended 8\ncommits 1 tail 0\n",
    },
    Example {
        name: "a process that another one starts",
        rows: "256",
        script: "channel c; process kid { x <- sync recv c; print x; } process main { sync always (); spawn kid; sync send c (5); sync joined kid; }",
        journal: "1 main.0.0 always ()\n2 main.1.0 -> kid.0.0 c (5)\n3 main.2.0 joined kid\n",
        ends: "kid ended 5\nmain ended\ncommits 3 tail 0\n",
    },
    Example {
        name: "a start behind the last row",
        rows: "1",
        script: "process k { print 3; sync always (); } process a { sync always (); sync guard { spawn k; } always (); }",
        journal: "1 a.0.0 always ()\n2 k.0.0 always ()\n",
        ends: "k ended 3\na spent\ncommits 2 tail 0\n",
    },
    Example {
        name: "two that wait for one end",
        rows: "256",
        script: "process k { } process a { sync always (); sync always (); spawn k; sync joined k; } process z { sync always (); sync joined k; }",
        journal: "1 a.0.0 always ()\n1 z.0.0 always ()\n2 a.1.0 always ()\n3 a.2.0 joined k\n3 z.1.0 joined k\n",
        ends: "k ended\na ended\nz ended\ncommits 5 tail 0\n",
    },
];

/// Two pairs of processes that have nothing in common.
pub(super) const TWO_PAIRS: &str =
    "channel c; channel d; process a { sync send c (1); } process b { sync recv c; } process f { sync send d (2); } process g { sync recv d; }";

/// Two processes that wait for what nobody sends.
pub(super) const TWO_WAIT: &str =
    "channel c; process a { sync recv c; } process b { sync recv c; }";

/// Two processes with the same choice, of which either may be the sender.
pub(super) const EITHER_WAY: &str =
    "channel c; process a { sync choose [send c (1), recv c]; } process b { sync choose [send c (1), recv c]; }";

/// One sync more than a process has nacks for.
pub(super) const TOO_MANY_NACKS: &str = "process a { loop 65 { sync nack n { } always (); } }";
