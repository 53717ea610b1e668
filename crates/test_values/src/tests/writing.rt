use super::checks::{built, check_same};
use script::parse;
use script_writer::write;
use std::process::Abort;
use std::test::Fail;

/// Want of memory ends the test.
fn check_written(rt: &(impl Abort + AllocGlobal), text: &str, canonical: &str) -> Result<(), Fail> {
    let script = parse(rt.alloc(), text.as_bytes())?;
    let written = write(rt.alloc(), &script)?;
    check_same(rt, written.as_str(), canonical, text);
    Ok(())
}

/// A text and how it is written, each built of its parts.
fn check_built(
    rt: &(impl Abort + AllocGlobal),
    text: &[(&str, usize)],
    canonical: &[(&str, usize)],
) -> Result<(), Fail> {
    let text = built(rt.alloc(), text)?;
    let canonical = built(rt.alloc(), canonical)?;
    check_written(rt, text.as_str(), canonical.as_str())
}

#[test]
fn parentheses(rt: HostRuntime) -> Result<(), Fail> {
    const TABLE: [(&str, &str); 4] = [
        (
            "process a{print (5-3)-1;}",
            "process a {\nprint 5 - 3 - 1 ;\n}\n",
        ),
        (
            "process a{print 5-(3-1);}",
            "process a {\nprint 5 - ( 3 - 1 ) ;\n}\n",
        ),
        (
            "process a{let x=(1+2);}",
            "process a {\nlet x = 1 + 2 ;\n}\n",
        ),
        (
            "process a{print 1-((2));}",
            "process a {\nprint 1 - 2 ;\n}\n",
        ),
    ];
    for (text, canonical) in &TABLE {
        check_written(&rt, text, canonical)?;
    }
    Ok(())
}

#[test]
fn each_form(rt: HostRuntime) -> Result<(), Fail> {
    const TABLE: [(&str, &str); 4] = [
        (" \t\r\n", ""),
        (
            "channel c;channel d;process c{sync send c(d,1,c);end;}",
            "channel c ;\nchannel d ;\nprocess c {\nsync send c ( d , 1 , c ) ;\nend ;\n}\n",
        ),
        (
            "channel c;process a{x,y<-sync choose[recv c,never,wrap always(1)as z to()];loop 3{sync never;if x<y{}else{print z;}}}",
            "channel c ;\nprocess a {\nx , y <- sync choose [ recv c , never , wrap always ( 1 ) as z to ( ) ] ;\nloop 3 {\nsync never ;\nif x < y {\n}\nelse {\nprint z ;\n}\n}\n}\n",
        ),
        (
            "process a{forever{sync nack n{end;}guard{}wrap cancelled n to(n);}}process b{if 1=1{}else{}sync choose[];}",
            "process a {\nforever {\nsync nack n {\nend ;\n}\nguard {\n}\nwrap cancelled n to ( n ) ;\n}\n}\nprocess b {\nif 1 = 1 {\n}\nelse {\n}\nsync choose [ ] ;\n}\n",
        ),
    ];
    for (text, canonical) in &TABLE {
        check_written(&rt, text, canonical)?;
    }
    Ok(())
}

#[test]
fn long_lists(rt: HostRuntime) -> Result<(), Fail> {
    check_built(
        &rt,
        &[("process a{", 1), ("end;", 16000), ("}", 1)],
        &[("process a {\n", 1), ("end ;\n", 16000), ("}\n", 1)],
    )?;
    check_built(
        &rt,
        &[("process a{print 1", 1), ("+1", 32000), (";}", 1)],
        &[("process a {\nprint 1 ", 1), ("+ 1 ", 32000), (";\n}\n", 1)],
    )?;
    check_built(
        &rt,
        &[
            ("process a{sync choose[", 1),
            ("choose[],", 6000),
            ("never];}", 1),
        ],
        &[
            ("process a {\nsync choose [ ", 1),
            ("choose [ ] , ", 6000),
            ("never ] ;\n}\n", 1),
        ],
    )
}

#[test]
fn depth(rt: HostRuntime) -> Result<(), Fail> {
    check_built(
        &rt,
        &[("process a{print 1", 1), ("-(1", 47), (")", 47), (";}", 1)],
        &[
            ("process a {\nprint 1 ", 1),
            ("- ( 1 ", 46),
            ("- 1 ", 1),
            (") ", 46),
            (";\n}\n", 1),
        ],
    )
}
