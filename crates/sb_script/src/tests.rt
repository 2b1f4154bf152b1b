use super::*;
use sb_grammar::Barred;
use std::alloc::{AllocError, Global};
use std::process::Abort;
use std::test::Fail;

/// A script of these commands.
fn shows(rt: &impl Abort, alloc: Global, text: &str, wanted: &str) -> Result<(), AllocError> {
    match script(alloc, text.as_bytes()) {
        Ok(commands) => {
            let found = format!(in alloc; "{commands:?}")?;
            assert_eq!(rt; found.as_str(), wanted, "{text}");
        }
        Err(why) => assert!(rt; false, "{text}: {why:?}"),
    }
    Ok(())
}

/// A script of so many commands.
fn reads(rt: &impl Abort, alloc: Global, bytes: &[u8], count: usize) {
    match script(alloc, bytes) {
        Ok(commands) => assert_eq!(rt; commands.len(), count),
        Err(why) => assert!(rt; false, "{why:?}"),
    }
}

/// A script whose first command is a batch of this text and so many statements.
fn begins(rt: &impl Abort, alloc: Global, bytes: &[u8], wanted: &str, count: usize) {
    match script(alloc, bytes) {
        Ok(commands) => match commands.first() {
            Some(Command::Batch { text, block }) => {
                assert_eq!(rt; text.as_str(), wanted);
                assert_eq!(rt; block.len(), count);
            }
            _ => assert!(rt; false, "no batch: {wanted}"),
        },
        Err(why) => assert!(rt; false, "{why:?}"),
    }
}

/// No script, at this line for this reason.
fn refuses(rt: &impl Abort, alloc: Global, bytes: &[u8], line: u64, why: BadWhy) {
    match script(alloc, bytes) {
        Ok(_) => assert!(rt; false, "line {line}: {why:?}"),
        Err(found) => assert_eq!(rt; found, ScriptRefused::BadLine { line, why }),
    }
}

#[test]
fn commands(rt: HostRuntime) -> Result<(), Fail> {
    let alloc = rt.alloc();
    shows(
        &rt,
        alloc,
        ":pump\n:clean\n:open\n:serve\n:dump",
        "[Pump, Clean, Open, Serve, Dump]",
    )?;
    shows(
        &rt,
        alloc,
        ":deliver 1\n:lose 2\n:tick 3\n:clock 0",
        "[Deliver(1), Lose(2), Tick(3), Clock(0)]",
    )?;
    shows(
        &rt,
        alloc,
        ":fuse 007\n:crash 1000000000000",
        "[Fuse(7), Crash(1000000000000)]",
    )?;
    shows(
        &rt,
        alloc,
        ":inject\n\t:inject  aBCd \n",
        "[Inject(Bytes { bytes: [] }), Inject(Bytes { bytes: [171, 205] })]",
    )?;
    Ok(())
}

#[test]
fn sessions(rt: HostRuntime) -> Result<(), Fail> {
    let alloc = rt.alloc();
    shows(
        &rt,
        alloc,
        ":connect A",
        "[Connect(Session { instance: A, number: 1 })]",
    )?;
    shows(
        &rt,
        alloc,
        " :connect\tB  09\r\n",
        "[Connect(Session { instance: B, number: 9 })]",
    )?;
    refuses(&rt, alloc, b":connect", 1, BadWhy::BadArgument);
    refuses(&rt, alloc, b":connect a", 1, BadWhy::BadArgument);
    refuses(&rt, alloc, b":connect A 0", 1, BadWhy::BadArgument);
    refuses(&rt, alloc, b":connect A 10", 1, BadWhy::BadArgument);
    refuses(&rt, alloc, b":connect A 1 1", 1, BadWhy::BadArgument);
    Ok(())
}

#[test]
fn bad_commands(rt: HostRuntime) {
    let alloc = rt.alloc();
    refuses(&rt, alloc, b"\n:PUMP", 2, BadWhy::UnknownCommand);
    refuses(&rt, alloc, b":", 1, BadWhy::UnknownCommand);
    refuses(&rt, alloc, b": pump", 1, BadWhy::UnknownCommand);
    refuses(&rt, alloc, b":pump\n:pump now", 2, BadWhy::BadArgument);
    refuses(&rt, alloc, b":tick", 1, BadWhy::BadArgument);
    refuses(&rt, alloc, b":tick +1", 1, BadWhy::BadArgument);
    refuses(&rt, alloc, b":tick 1000000000001", 1, BadWhy::BadArgument);
    refuses(&rt, alloc, b":inject abc", 1, BadWhy::BadArgument);
    refuses(&rt, alloc, b":inject 0g", 1, BadWhy::BadArgument);
}

#[test]
fn batches(rt: HostRuntime) {
    let alloc = rt.alloc();
    reads(&rt, alloc, b"", 0);
    reads(&rt, alloc, b"-- none\nGO\r\n/* none */\nGO\n", 0);
    reads(
        &rt,
        alloc,
        b"COMMIT\n go\t\nCOMMIT\r\nGo\r\nCOMMIT\n\tgO",
        3,
    );
    reads(&rt, alloc, b"COMMIT\n:pump\nCOMMIT", 3);
    refuses(&rt, alloc, b"COMMIT GO", 1, BadWhy::BadStatement);
    refuses(&rt, alloc, b"COMMIT\nGOTO", 2, BadWhy::BadStatement);
    refuses(&rt, alloc, b"COMMIT\nGO\r", 2, BadWhy::BadStatement);
    refuses(&rt, alloc, b"COMMIT\n\r", 2, BadWhy::Unlexed);
}

#[test]
fn texts_of_batches(rt: HostRuntime) {
    let alloc = rt.alloc();
    begins(&rt, alloc, b"COMMIT", "COMMIT\n", 1);
    begins(
        &rt,
        alloc,
        b"\n COMMIT;\r\nCOMMIT\nGO\n",
        "\n COMMIT;\nCOMMIT\n",
        2,
    );
    begins(&rt, alloc, b"GO\nCOMMIT -- GO\n:pump", "COMMIT -- GO\n", 1);
}

#[test]
fn places(rt: HostRuntime) {
    let alloc = rt.alloc();
    let unsupported = BadWhy::Unsupported { what: Barred::Drop };
    refuses(&rt, alloc, b"NONE\nCOMMIT", 1, BadWhy::BadStatement);
    refuses(
        &rt,
        alloc,
        b"COMMIT\nGO\n\nEND CONVERSATION\n\n",
        4,
        BadWhy::BadStatement,
    );
    refuses(&rt, alloc, b":pump\nCOMMIT\nDROP", 3, unsupported);
    refuses(&rt, alloc, b"COMMIT\n-- 'a\n'b\nCOMMIT", 3, BadWhy::Unlexed);
    refuses(&rt, alloc, b"COMMIT /*\nGO\n*/ COMMIT", 1, BadWhy::Unlexed);
    refuses(&rt, alloc, b"COMMIT /*\n:pump\n*/", 1, BadWhy::Unlexed);
    refuses(&rt, alloc, b"COMMIT\nNONE\n:tick", 2, BadWhy::BadStatement);
    refuses(&rt, alloc, b":tick\nNONE", 1, BadWhy::BadArgument);
    refuses(&rt, alloc, b":tick\nCOMMIT\n\xff\n", 3, BadWhy::NotText);
}

#[test]
fn limits(rt: HostRuntime) -> Result<(), Fail> {
    let alloc = rt.alloc();
    let mut bytes = Vec::from_slice(alloc, b"GO\n:pump")?;
    bytes.resize(LIMIT, b' ')?;
    reads(&rt, alloc, bytes.as_slice(), 1);
    bytes.push(b'\n')?;
    refuses(&rt, alloc, bytes.as_slice(), 2, BadWhy::TooLong);
    Ok(())
}

#[test]
fn a_thousand_batches(rt: HostRuntime) -> Result<(), Fail> {
    let alloc = rt.alloc();
    let mut text = String::new(alloc);
    for _ in 0..1_000 {
        text.push_str("COMMIT\nGO\n")?;
    }
    reads(&rt, alloc, text.as_bytes(), 1_000);
    text.push_str("COMMIT\nNONE")?;
    refuses(&rt, alloc, text.as_bytes(), 2_002, BadWhy::BadStatement);
    Ok(())
}
