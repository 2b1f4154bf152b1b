//! Runs of whole scripts over memory.

use crate::{BadWhy, Ended, Why, run};
use sb_outside::{Failed, MemSink, MemSource, Sink, Source};
use std::alloc::Global;
use std::test::Fail;

const DIALOG: &str = "a0000000-0000-0000-0000-000000000001";

const FIRST: &str = "SEND ON CONVERSATION 'a0000000-0000-0000-0000-000000000001' (N'x')
:clean
RECEIVE TOP (1) * FROM FarQ
GO
RECEIVE TOP (1) * FROM FarQ
";

const FIRST_TOLD: &str = "A1 SEND: ok
world hand over a0000000-0000-0000-0000-000000000001 i 1: new
A1 RECEIVE: received 1
  1 a0000000-0000-0000-0000-000000000003 a0000000-0000-0000-0000-000000000004 [DEFAULT] 0x7800
A1 RECEIVE: received 0
";

fn word(alloc: Global) -> Result<Vec<String>, Fail> {
    let mut words = Vec::new(alloc);
    words.push(String::from_str(alloc, "steps")?)?;
    Ok(words)
}

// A run over a source and a sink in memory that fail at these calls.
fn ran(
    alloc: Global,
    script: &str,
    reads: &[u64],
    writes: &[u64],
) -> Result<(Ended, MemSink), Fail> {
    let words = word(alloc)?;
    let mut source = MemSource::new(script.as_bytes().to_vec(alloc)?, reads.to_vec(alloc)?);
    let mut sink = MemSink::new(alloc, writes.to_vec(alloc)?);
    let ended = run(alloc, words.as_slice(), &mut source, &mut sink);
    Ok((ended, sink))
}

#[test]
fn the_ready_dialog_delivers_one_message(rt: HostRuntime) -> Result<(), Fail> {
    let (ended, sink) = ran(rt.alloc(), FIRST, &[], &[])?;
    assert_eq!(rt; ended.status, 0);
    assert_eq!(rt; ended.why, Why::Fine);
    assert_eq!(rt; ended.written_steps, 4);
    assert_eq!(rt; sink.as_slice(), FIRST_TOLD.as_bytes());
    Ok(())
}

#[test]
fn a_send_on_no_conversation_is_refused(rt: HostRuntime) -> Result<(), Fail> {
    let script = "SEND ON CONVERSATION 'a0000000-0000-0000-0000-000000000009' (N'x')\n";
    let told = "A1 SEND: refused 16 NoConversation a0000000-0000-0000-0000-000000000009\n";
    let (ended, sink) = ran(rt.alloc(), script, &[], &[])?;
    assert_eq!(rt; ended.status, 0);
    assert_eq!(rt; sink.as_slice(), told.as_bytes());
    Ok(())
}

// Whether the bytes are no script, by this line and for this reason, and nothing is run.
fn is_refused(alloc: Global, script: &str, line: u64, why: BadWhy) -> Result<bool, Fail> {
    let (ended, sink) = ran(alloc, script, &[], &[])?;
    Ok(
        ended.status == 1
            && ended.why == Why::Script { line, why }
            && ended.history.is_empty()
            && sink.as_slice().is_empty(),
    )
}

#[test]
fn what_is_no_script_runs_nothing(rt: HostRuntime) -> Result<(), Fail> {
    let alloc = rt.alloc();
    assert!(rt; is_refused(alloc, ":pomp", 1, BadWhy::UnknownCommand)?);
    assert!(rt; is_refused(alloc, ":clean\n:tick", 2, BadWhy::BadArgument)?);
    assert!(rt; is_refused(alloc, "\nCOMMIT\nGO\nx", 4, BadWhy::BadStatement)?);
    assert!(rt; is_refused(alloc, "GO\nCOMMIT 'it\n", 2, BadWhy::Unlexed)?);
    Ok(())
}

// Whether a script is run to its end and has this transcript.
fn tells(alloc: Global, script: &str, told: &str) -> Result<bool, Fail> {
    let (ended, sink) = ran(alloc, script, &[], &[])?;
    Ok(ended.why == Why::Fine && sink.as_slice() == told.as_bytes())
}

#[test]
fn a_statement_that_is_not_built_ends_its_batch(rt: HostRuntime) -> Result<(), Fail> {
    let script =
        "BEGIN TRANSACTION RECEIVE * FROM NearQ\nGO\nreceive * from nowhere\nGO\nRECEIVE * FROM [NearQ]; IF 1 = 1 COMMIT\nGO\nDELETE FROM T WHERE id = @none\n";
    let told = "A1 BEGIN TRANSACTION: refused 33 NotYet
A1 RECEIVE: refused 10 NoQueue [nowhere]
A1 RECEIVE: received 0
A1 COMMIT: refused 33 NotYet
A1 DELETE: refused 33 NotYet
";
    assert!(rt; tells(rt.alloc(), script, told)?);
    Ok(())
}

#[test]
fn variables_outlive_their_batch(rt: HostRuntime) -> Result<(), Fail> {
    let script =
        "DECLARE @h UNIQUEIDENTIFIER = 'a0000000-0000-0000-0000-000000000001', @b NVARCHAR(9)
SEND ON CONVERSATION @h (N'x' + N'y')
:clean
RECEIVE TOP (2 - 1) @b = message_body FROM FarQ
GO
IF @b = N'xy' AND @@ROWCOUNT = 1 SEND ON CONVERSATION @h (@b + N'z') ELSE RETURN
:clean
RECEIVE * FROM FarQ
SET @none = 1
RECEIVE * FROM FarQ
";
    let told = "A1 SEND: ok
world hand over a0000000-0000-0000-0000-000000000001 i 1: new
A1 RECEIVE: received 1
  1 a0000000-0000-0000-0000-000000000003 a0000000-0000-0000-0000-000000000004 [DEFAULT] 0x78007900
A1 SEND: ok
world hand over a0000000-0000-0000-0000-000000000001 i 2: next
A1 RECEIVE: received 1
  2 a0000000-0000-0000-0000-000000000003 a0000000-0000-0000-0000-000000000004 [DEFAULT] 0x780079007a00
A1 SET: refused 2 NoVariable @none
";
    assert!(rt; tells(rt.alloc(), script, told)?);
    Ok(())
}

// Each refusal, and behind it a statement that just isn't refused so.
#[test]
fn values_are_refused_where_they_do_not_fit(rt: HostRuntime) -> Result<(), Fail> {
    let script = "SET @z = 1
GO
DECLARE @z BIGINT SET @z = 'x'
GO
SET @z = CAST('1' AS BIGINT) SET @z = 9223372036854775807 + @z
GO
SET @z = 9223372036854775806 + @z
RECEIVE TOP (@z - @z) * FROM NearQ
GO
RECEIVE TOP (1) * FROM NearQ
";
    let told = "A1 SET: refused 2 NoVariable @z
A1 SET: refused 3 WrongKind BIGINT
A1 SET: refused 4 Overflow 9223372036854775807
A1 RECEIVE: refused 23 BadNumber 0
A1 RECEIVE: received 0
";
    assert!(rt; tells(rt.alloc(), script, told)?);
    Ok(())
}

#[test]
fn definitions_are_refused_where_they_lack(rt: HostRuntime) -> Result<(), Fail> {
    let script = "CREATE QUEUE FarQ
GO
CREATE MESSAGE TYPE FarQ CREATE CONTRACT C (Pong SENT BY ANY)
GO
CREATE CONTRACT C (FarQ SENT BY TARGET)
GO
CREATE CONTRACT C (FarQ SENT BY INITIATOR) CREATE SERVICE S ON QUEUE FarQ (D)
GO
CREATE SERVICE S ON QUEUE FarQ (C) CREATE SERVICE T ON QUEUE Q
GO
ALTER QUEUE Q WITH STATUS = OFF
";
    let told = "A1 CREATE QUEUE: refused 7 NameTaken [FarQ]
A1 CREATE MESSAGE TYPE: ok
A1 CREATE CONTRACT: refused 8 NoMessageType [Pong]
A1 CREATE CONTRACT: refused 14 NothingFromInitiator [C]
A1 CREATE CONTRACT: ok
A1 CREATE SERVICE: refused 9 NoContract [D]
A1 CREATE SERVICE: ok
A1 CREATE SERVICE: refused 10 NoQueue [Q]
A1 ALTER QUEUE: refused 10 NoQueue [Q]
";
    assert!(rt; tells(rt.alloc(), script, told)?);
    Ok(())
}

#[test]
fn what_a_definition_names_must_be_there(rt: HostRuntime) -> Result<(), Fail> {
    let script =
        "CREATE QUEUE Q WITH ACTIVATION (PROCEDURE_NAME = P, MAX_QUEUE_READERS = 1, EXECUTE AS SELF)
GO
CREATE PROCEDURE P AS RETURN
GO
CREATE QUEUE Q WITH ACTIVATION (PROCEDURE_NAME = P, MAX_QUEUE_READERS = 1, EXECUTE AS SELF)
CREATE BROKER PRIORITY X FOR CONVERSATION SET (LOCAL_SERVICE_NAME = S, PRIORITY_LEVEL = 10)
GO
CREATE BROKER PRIORITY X FOR CONVERSATION SET (LOCAL_SERVICE_NAME = Far, PRIORITY_LEVEL = 11)
GO
CREATE BROKER PRIORITY X FOR CONVERSATION SET (LOCAL_SERVICE_NAME = Far, PRIORITY_LEVEL = 10)
RECEIVE * FROM Q
";
    let told = "A1 CREATE QUEUE: refused 11 NoProcedure [P]
A1 CREATE PROCEDURE: ok
A1 CREATE QUEUE: ok
A1 CREATE BROKER PRIORITY: refused 12 NoService [S]
A1 CREATE BROKER PRIORITY: refused 23 BadNumber 11
A1 CREATE BROKER PRIORITY: ok
A1 RECEIVE: received 0
";
    assert!(rt; tells(rt.alloc(), script, told)?);
    Ok(())
}

#[test]
fn a_queue_that_is_off_takes_nothing(rt: HostRuntime) -> Result<(), Fail> {
    let script = "ALTER QUEUE FarQ WITH STATUS = OFF
GO
SEND ON CONVERSATION 'a0000000-0000-0000-0000-000000000001' (N'x')
:clean
RECEIVE TOP (1) * FROM FarQ
GO
ALTER QUEUE FarQ WITH STATUS = ON
:clean
RECEIVE TOP (1) * FROM FarQ
";
    let told = "A1 ALTER QUEUE: ok
A1 SEND: ok
world hand over a0000000-0000-0000-0000-000000000001 i 1: not here 4
A1 RECEIVE: refused 24 QueueOff [FarQ]
A1 ALTER QUEUE: ok
world hand over a0000000-0000-0000-0000-000000000001 i 1: new
A1 RECEIVE: received 1
  1 a0000000-0000-0000-0000-000000000003 a0000000-0000-0000-0000-000000000004 [DEFAULT] 0x7800
";
    assert!(rt; tells(rt.alloc(), script, told)?);
    Ok(())
}

#[test]
fn a_command_that_is_not_built_has_no_effect(rt: HostRuntime) -> Result<(), Fail> {
    let script = ":connect A\n:connect A 2\n:connect B\n:tick 5\n:inject 00\n:clean\n";
    let told = "world connect: refused 33 NotYet
world connect: refused 33 NotYet
world tick: refused 33 NotYet
world inject: refused 33 NotYet
";
    assert!(rt; tells(rt.alloc(), script, told)?);
    Ok(())
}

#[test]
fn a_refused_statement_ends_its_batch(rt: HostRuntime) -> Result<(), Fail> {
    let script = "SEND ON CONVERSATION 'a0000000-0000-0000-0000-000000000009' COMMIT\n";
    let told = "A1 SEND: refused 16 NoConversation a0000000-0000-0000-0000-000000000009\n";
    assert!(rt; tells(rt.alloc(), script, told)?);
    Ok(())
}

#[test]
fn a_body_has_at_most_65536_bytes(rt: HostRuntime) -> Result<(), Fail> {
    let alloc = rt.alloc();
    let body = "00".repeat(alloc, 65536)?;
    let long = format!(in alloc; "SEND ON CONVERSATION '{DIALOG}' (0x{body})")?;
    assert!(rt; tells(alloc, long.as_str(), "A1 SEND: ok\n")?);
    let longer = format!(in alloc; "SEND ON CONVERSATION '{DIALOG}' (0x{body}00)")?;
    assert!(rt;
        tells(
            alloc,
            longer.as_str(),
            "A1 SEND: refused 22 BodyTooLong 65537\n"
        )?
    );
    Ok(())
}

#[test]
fn a_full_history_ends_the_run(rt: HostRuntime) -> Result<(), Fail> {
    let script = ":pump\n".repeat(rt.alloc(), 200_001)?;
    let (ended, sink) = ran(rt.alloc(), script.as_str(), &[], &[])?;
    let line = "world pump: refused 33 NotYet\n";
    assert_eq!(rt; ended.status, 8);
    assert_eq!(rt; ended.written_steps, 200_000);
    assert_eq!(rt; sink.as_slice().len(), 200_000 * line.len());
    assert!(rt; sink.as_slice().ends_with(line.as_bytes()));
    Ok(())
}

#[test]
fn other_words_are_usage(rt: HostRuntime) -> Result<(), Fail> {
    let mut source = MemSource::new(FIRST.as_bytes().to_vec(rt.alloc())?, Vec::new(rt.alloc()));
    let mut sink = MemSink::new(rt.alloc(), Vec::new(rt.alloc()));
    let none = Vec::new(rt.alloc());
    let ended = run(rt.alloc(), none.as_slice(), &mut source, &mut sink);
    assert_eq!(rt; ended.status, 2);
    let mut twice = word(rt.alloc())?;
    twice.push(String::from_str(rt.alloc(), "steps")?)?;
    let ended = run(rt.alloc(), twice.as_slice(), &mut source, &mut sink);
    assert_eq!(rt; ended.why, Why::Usage);
    assert_eq!(rt; sink.as_slice(), b"".as_slice());
    Ok(())
}

#[test]
fn each_failing_read_ends_the_run(rt: HostRuntime) -> Result<(), Fail> {
    let blank = "\n".repeat(rt.alloc(), 3000)?;
    for read in 1..=4 {
        let (ended, sink) = ran(rt.alloc(), blank.as_str(), &[read], &[])?;
        assert_eq!(rt; ended.status, 3);
        assert_eq!(rt; sink.as_slice(), b"".as_slice());
    }
    let (ended, _) = ran(rt.alloc(), blank.as_str(), &[5], &[])?;
    assert_eq!(rt; ended.status, 0);
    Ok(())
}

#[test]
fn each_failing_write_leaves_whole_steps(rt: HostRuntime) -> Result<(), Fail> {
    for write in 1..=4 {
        let (ended, sink) = ran(rt.alloc(), FIRST, &[], &[write])?;
        assert_eq!(rt; ended.status, 4);
        assert_eq!(rt; ended.written_steps as u64, write - 1);
        assert!(rt; FIRST_TOLD.as_bytes().starts_with(sink.as_slice()));
    }
    let (ended, _) = ran(rt.alloc(), FIRST, &[], &[5])?;
    assert_eq!(rt; ended.status, 0);
    Ok(())
}

// A source and a sink that move one byte a call.
struct Slow<T>(T);

impl Source for Slow<MemSource> {
    ghost use Rattle.std.specs.Prelude.{None};
    ghost use Rattle.sb_outside.specs.Memory.{source_faults};

    ghost left = { λ _. None };

    ghost faults = { λ s. source_faults s.0 };

    fn read(&mut self, into: &mut [u8]) -> Result<usize, Failed> {
        let one = into.len().min(1);
        self.0.read(&mut into[..one])
    }
}

impl Sink for Slow<MemSink> {
    ghost use Rattle.std.specs.Prelude.{None};
    ghost use Rattle.sb_outside.specs.Memory.{sink_faults};

    ghost written = { λ _. None };

    ghost faults = { λ s. sink_faults s.0 };

    fn write(&mut self, bytes: &[u8]) -> Result<usize, Failed> {
        let one = bytes.len().min(1);
        self.0.write(&bytes[..one])
    }
}

#[test]
fn one_byte_a_call_is_enough(rt: HostRuntime) -> Result<(), Fail> {
    let words = word(rt.alloc())?;
    let bytes = FIRST.as_bytes().to_vec(rt.alloc())?;
    let mut source = Slow(MemSource::new(bytes, Vec::new(rt.alloc())));
    let mut sink = Slow(MemSink::new(rt.alloc(), Vec::new(rt.alloc())));
    let ended = run(rt.alloc(), words.as_slice(), &mut source, &mut sink);
    assert_eq!(rt; ended.status, 0);
    assert_eq!(rt; sink.0.as_slice(), FIRST_TOLD.as_bytes());
    let Slow(_) = source;
    let Slow(_) = sink;
    Ok(())
}
