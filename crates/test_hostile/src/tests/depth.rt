//! The deepest scripts, on little stack.

use protocol_values::Atom;
use runtime_run::{OpenGate, RunFault, run};
use script::{ScriptFault, parse};
use script_writer::write;
use std::alloc::{AllocError, Global};
use std::sync::Wait;
use std::test::Fail;
use std::thread::{Builder, Threads, scope, scope_env};
use thread::End;

/// The bytes of stack that are enough for all that is done with a script, whichever compiler made the program.
/// Workers get half as many, and run it on them.
const STACK: usize = 1024 * 1024;

/// A text with so many of one part and, behind its middle, so many of another. Its process prints one number.
#[derive(Clone, Copy, Debug)]
struct Shape {
    head: &'static str,
    opening: &'static str,
    times: usize,
    middle: &'static str,
    closing: &'static str,
    end: &'static str,
    prints: u32,
}

/// Each nests one part of the language, so deep that its innermost token is 48 deep, or 47.
const SHAPES: [Shape; 10] = [
    Shape {
        head: "process a { print ",
        opening: "(",
        times: 47,
        middle: "7",
        closing: ")",
        end: "; }",
        prints: 7,
    },
    Shape {
        head: "process a { print 1",
        opening: "+(1",
        times: 47,
        middle: "",
        closing: ")",
        end: "; }",
        prints: 48,
    },
    Shape {
        head: "process a { x <- sync ",
        opening: "choose [",
        times: 46,
        middle: "always (5)",
        closing: "]",
        end: "; print x; }",
        prints: 5,
    },
    Shape {
        head: "process a { x <- sync ",
        opening: "wrap ",
        times: 46,
        middle: "always (1)",
        closing: " as p to (p + 1)",
        end: "; print x; }",
        prints: 47,
    },
    Shape {
        head: "process a { x <- sync ",
        opening: "guard { let g = 1; } ",
        times: 46,
        middle: "always (5)",
        closing: "",
        end: "; print x; }",
        prints: 5,
    },
    Shape {
        head: "process a { ",
        opening: "if 0 = 0 { ",
        times: 47,
        middle: "print 6;",
        closing: " } else { }",
        end: " }",
        prints: 6,
    },
    Shape {
        head: "process a { ",
        opening: "loop 1 { sync always (); ",
        times: 46,
        middle: "print 6;",
        closing: " }",
        end: " }",
        prints: 6,
    },
    Shape {
        head: "process a { ",
        opening: "sync guard { ",
        times: 23,
        middle: "print 6;",
        closing: " } always ();",
        end: " }",
        prints: 6,
    },
    Shape {
        head: "process a { ",
        opening: "sync nack n { ",
        times: 23,
        middle: "print 6;",
        closing: " } always ();",
        end: " }",
        prints: 6,
    },
    Shape {
        head: "process a { ",
        opening: "sync choose [never, wrap guard { if 0 < 1 { ",
        times: 9,
        middle: "print 6;",
        closing: " } else { } } always () to ()];",
        end: " }",
        prints: 6,
    },
];

fn text_of(alloc: Global, shape: &Shape) -> Result<String, AllocError> {
    let mut text = String::from_str(alloc, shape.head)?;
    for _ in 0..shape.times {
        text.push_str(shape.opening)?;
    }
    text.push_str(shape.middle)?;
    for _ in 0..shape.times {
        text.push_str(shape.closing)?;
    }
    text.push_str(shape.end)?;
    Ok(text)
}

/// What became of a script.
#[derive(Clone, Copy, Debug, Drop, PartialEq, Eq)]
enum Fate {
    Memory,
    Script(ScriptFault),
    Run(RunFault),
    /// It was written, read again and run, and printed this.
    Printed(u32),
    Otherwise,
}

/// The fate of a text on so many workers.
fn fate_of<R: Threads + Wait + Sync>(rt: &R, alloc: Global, text: &[u8], workers: u8) -> Fate {
    let script = match parse(alloc, text) {
        Ok(script) => script,
        Err(fault) => return Fate::Script(fault),
    };
    let Ok(written) = write(alloc, &script) else {
        return Fate::Memory;
    };
    let again = match parse(alloc, written.as_bytes()) {
        Ok(script) => script,
        Err(fault) => return Fate::Script(fault),
    };
    let record = match run(rt, alloc, &again, workers, 64, &OpenGate) {
        Ok(record) => record,
        Err(fault) => return Fate::Run(fault),
    };
    let Some(printed) = record.outputs.first() else {
        return Fate::Otherwise;
    };
    match (record.ends.as_slice(), printed.as_slice()) {
        ([End::Ended], [Atom::Num(value)]) => Fate::Printed(*value),
        _ => Fate::Otherwise,
    }
}

#[test]
fn deep_scripts_on_little_stack(rt: HostRuntime) -> Result<(), Fail> {
    let alloc = rt.alloc();
    for (number, shape) in SHAPES.iter().enumerate() {
        let text = text_of(alloc, shape)?;
        for workers in [1, 2] {
            let told = scope(scope_env(), &rt, |scope| -> Option<Fate> {
                let started = Builder::new()
                    .stack_size(STACK)
                    .spawn_scoped(scope, || -> Fate {
                        fate_of(&rt, alloc, text.as_bytes(), workers)
                    });
                match started {
                    Ok(handle) => Some(handle.join(&rt)),
                    Err(_) => None,
                }
            });
            assert_eq!(rt; told, Some(Fate::Printed(shape.prints)), "{number}");
        }
    }
    Ok(())
}
