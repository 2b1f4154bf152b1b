use super::*;
use sb_grammar::Barred;
use std::alloc::{AllocError, Global};
use std::process::Abort;
use std::test::Fail;

/// A batch of so many statements.
fn reads(rt: &impl Abort, alloc: Global, text: &str, count: usize) {
    match statements(alloc, text) {
        Ok(all) => assert_eq!(rt; all.len(), count, "{text}"),
        Err(why) => assert!(rt; false, "{text}: {why:?}"),
    }
}

/// No batch, for this reason.
fn refuses(rt: &impl Abort, alloc: Global, text: &str, why: ParseRefused) {
    match statements(alloc, text) {
        Ok(_) => assert!(rt; false, "{text}"),
        Err(found) => assert_eq!(rt; found, why, "{text}"),
    }
}

/// The statements of a batch, as Debug writes them.
fn shown(rt: &impl Abort, alloc: Global, text: &str) -> Result<String, AllocError> {
    match statements(alloc, text) {
        Ok(all) => format!(in alloc; "{all:?}"),
        Err(why) => {
            assert!(rt; false, "{text}: {why:?}");
            Ok(String::new(alloc))
        }
    }
}

/// Whether two texts are the same statements.
fn are_alike(rt: &impl Abort, alloc: Global, one: &str, other: &str) -> Result<bool, AllocError> {
    let first = shown(rt, alloc, one)?;
    let second = shown(rt, alloc, other)?;
    Ok(first.as_str() == second.as_str())
}

/// The text without the `^` that marks a place, and that place.
fn unmarked(alloc: Global, marked: &str) -> Result<(String, usize), AllocError> {
    let mut text = String::new(alloc);
    let mut at = 0;
    for part in marked.split('^') {
        at = text.len();
        text.push_str(part)?;
    }
    Ok((text, at))
}

/// No spelling goes on at the mark.
fn is_bad(rt: &impl Abort, alloc: Global, marked: &str) -> Result<(), AllocError> {
    let (text, at) = unmarked(alloc, marked)?;
    refuses(rt, alloc, text.as_str(), ParseRefused::BadStatement { at });
    Ok(())
}

fn is_barred(rt: &impl Abort, alloc: Global, marked: &str, what: Barred) -> Result<(), AllocError> {
    let (text, at) = unmarked(alloc, marked)?;
    refuses(
        rt,
        alloc,
        text.as_str(),
        ParseRefused::Unsupported { at, what },
    );
    Ok(())
}

fn is_unlexed(rt: &impl Abort, alloc: Global, marked: &str) -> Result<(), AllocError> {
    let (text, at) = unmarked(alloc, marked)?;
    refuses(rt, alloc, text.as_str(), ParseRefused::Unlexed { at });
    Ok(())
}

/// `front`, so many times `opening`, `middle`, and as many times `closing`.
fn nested(
    alloc: Global,
    front: &str,
    (opening, middle, closing): (&str, &str, &str),
    depth: usize,
) -> Result<String, AllocError> {
    let mut text = String::from_str(alloc, front)?;
    for _ in 0..depth {
        text.push_str(opening)?;
    }
    text.push_str(middle)?;
    for _ in 0..depth {
        text.push_str(closing)?;
    }
    Ok(text)
}

#[test]
fn kinds_and_contracts_in_two_spellings(rt: HostRuntime) -> Result<(), Fail> {
    for (one, other) in [
        (
            "CREATE MESSAGE TYPE m",
            "create message type [m] authorization dbo validation = none;",
        ),
        (
            "CREATE MESSAGE TYPE \"a]\" VALIDATION = EMPTY",
            "Create Message Type [a]]] Validation=Empty",
        ),
        (
            "CREATE CONTRACT c (m SENT BY INITIATOR, n SENT BY TARGET, o SENT BY ANY)",
            "create contract [c] authorization x ([m] sent by initiator,[n]sent by target,o sent by any)",
        ),
        (
            "CREATE SERVICE s ON QUEUE q",
            "create service \"s\" authorization a on queue dbo.q;",
        ),
        (
            "CREATE SERVICE s ON QUEUE q (c, [DEFAULT])",
            "CREATE SERVICE s ON QUEUE Dbo /* . */ . q (c,DEFAULT)",
        ),
    ] {
        assert!(rt; are_alike(&rt, rt.alloc(), one, other)?, "{other}");
    }
    Ok(())
}

#[test]
fn queues_in_two_spellings(rt: HostRuntime) -> Result<(), Fail> {
    for (one, other) in [
        (
            "CREATE QUEUE q",
            "create queue dbo.q with poison_message_handling (status = on), retention = off, status = on;",
        ),
        (
            "CREATE QUEUE q WITH STATUS = OFF, POISON_MESSAGE_HANDLING (STATUS = OFF)",
            "CREATE QUEUE q WITH POISON_MESSAGE_HANDLING (STATUS = OFF), STATUS = OFF",
        ),
        (
            "CREATE QUEUE q WITH ACTIVATION (PROCEDURE_NAME = p, MAX_QUEUE_READERS = 2)",
            "create queue q with activation (execute as self, max_queue_readers = 02, status = on, procedure_name = DBO.p)",
        ),
        (
            "CREATE QUEUE q WITH ACTIVATION (STATUS = OFF, PROCEDURE_NAME = p, MAX_QUEUE_READERS = 0, EXECUTE AS OWNER)",
            "CREATE QUEUE q WITH ACTIVATION (MAX_QUEUE_READERS = 0, EXECUTE AS 'u', STATUS = OFF, PROCEDURE_NAME = p)",
        ),
        (
            "ALTER QUEUE q WITH STATUS = OFF ALTER QUEUE q WITH STATUS = ON",
            "alter queue dbo.q with status=off; alter queue [q] with status=on",
        ),
    ] {
        assert!(rt; are_alike(&rt, rt.alloc(), one, other)?, "{other}");
    }
    Ok(())
}

#[test]
fn routes_and_priorities_in_two_spellings(rt: HostRuntime) -> Result<(), Fail> {
    for (one, other) in [
        (
            "CREATE ROUTE r WITH ADDRESS = 'LOCAL'",
            "create route r authorization a with address = N'LOCAL';",
        ),
        (
            "CREATE ROUTE r WITH ADDRESS = 'TCP://B:4022', SERVICE_NAME = 's', BROKER_INSTANCE = 'a0000000-0000-0000-0000-000000000001'",
            "CREATE ROUTE r WITH BROKER_INSTANCE = 'A0000000-0000-0000-0000-000000000001', SERVICE_NAME = 's', ADDRESS = 'tcp://B:1'",
        ),
        (
            "CREATE BROKER PRIORITY p FOR CONVERSATION",
            "create broker priority p for conversation set (priority_level = 5, remote_service_name = any, contract_name = any, local_service_name = any)",
        ),
        (
            "CREATE BROKER PRIORITY p FOR CONVERSATION SET (CONTRACT_NAME = c, LOCAL_SERVICE_NAME = s, REMOTE_SERVICE_NAME = 't', PRIORITY_LEVEL = 7)",
            "CREATE BROKER PRIORITY p FOR CONVERSATION SET (REMOTE_SERVICE_NAME = N't', PRIORITY_LEVEL = 7, LOCAL_SERVICE_NAME = [s], CONTRACT_NAME = \"c\")",
        ),
        (
            "CREATE BROKER PRIORITY p FOR CONVERSATION SET (PRIORITY_LEVEL = DEFAULT)",
            "CREATE BROKER PRIORITY p FOR CONVERSATION SET (PRIORITY_LEVEL = 005)",
        ),
    ] {
        assert!(rt; are_alike(&rt, rt.alloc(), one, other)?, "{other}");
    }
    Ok(())
}

#[test]
fn tables_and_procedures_in_two_spellings(rt: HostRuntime) -> Result<(), Fail> {
    for (one, other) in [
        (
            "CREATE TABLE t (id BIGINT PRIMARY KEY, n BIGINT, body NVARCHAR(MAX))",
            "create table dbo.t(ID bigint primary key,N bigint,BODY nvarchar(max));",
        ),
        (
            "CREATE PROCEDURE p AS RETURN",
            "create proc dbo.p  as return;",
        ),
        (
            "CREATE PROC p AS DECLARE @a INT SET @a = 1 RETURN",
            "CREATE PROC p AS DECLARE @a INT BEGIN TRAN; SET @a = 1 RETURN COMMIT WORK;",
        ),
        (
            "CREATE PROC p AS IF @a = 1 ROLLBACK",
            "CREATE PROC p AS BEGIN TRANSACTION IF @a = 1 ROLLBACK WORK COMMIT",
        ),
    ] {
        assert!(rt; are_alike(&rt, rt.alloc(), one, other)?, "{other}");
    }
    Ok(())
}

#[test]
fn dialogs_in_two_spellings(rt: HostRuntime) -> Result<(), Fail> {
    for (one, other) in [
        (
            "BEGIN DIALOG @h FROM SERVICE a TO SERVICE 'b'",
            "begin dialog conversation @h from service [a] to service (N'b');",
        ),
        (
            "BEGIN DIALOG @h FROM SERVICE a TO SERVICE @b, 'CURRENT DATABASE' ON CONTRACT c WITH LIFETIME = 5, RELATED_CONVERSATION = @g, ENCRYPTION = OFF",
            "begin dialog @h from service a to service @b, N'CURRENT DATABASE' on contract [c] with lifetime = (5), related_conversation = @g, encryption = off",
        ),
        (
            "BEGIN DIALOG @h FROM SERVICE a TO SERVICE 'b', 'a0000000-0000-0000-0000-00000000000b' WITH RELATED_CONVERSATION_GROUP = @g",
            "BEGIN DIALOG @h FROM SERVICE a TO SERVICE 'b', 'A0000000-0000-0000-0000-00000000000B' WITH RELATED_CONVERSATION_GROUP = @g;",
        ),
        (
            "MOVE CONVERSATION @h TO @g END CONVERSATION @h END CONVERSATION @h WITH CLEANUP",
            "move conversation (@h) to (@g); end conversation @h; end conversation @h with cleanup;",
        ),
        (
            "END CONVERSATION @h WITH ERROR = 1 DESCRIPTION = 'x' BEGIN CONVERSATION TIMER (@h) TIMEOUT = 5",
            "end conversation @h with error=1 description=N'x' begin conversation timer ((@h)) timeout=5;",
        ),
    ] {
        assert!(rt; are_alike(&rt, rt.alloc(), one, other)?, "{other}");
    }
    Ok(())
}

#[test]
fn messages_in_two_spellings(rt: HostRuntime) -> Result<(), Fail> {
    for (one, other) in [
        (
            "SEND ON CONVERSATION @h SEND ON CONVERSATION @h MESSAGE TYPE m (@b + 1)",
            "send on conversation (@h); send on conversation @h message type [m] ((@b + 1));",
        ),
        (
            "RECEIVE * FROM q RECEIVE TOP (1) message_body FROM q WHERE conversation_handle = @h",
            "receive*from dbo.q; receive top ((1)) MESSAGE_BODY from q where CONVERSATION_HANDLE = @h",
        ),
        (
            "RECEIVE conversation_handle, conversation_group_id, message_type_name, message_sequence_number, CAST(message_body AS SYSNAME) FROM q",
            "RECEIVE conversation_handle,conversation_group_id,message_type_name,message_sequence_number,cast(message_body as nvarchar(9)) FROM q;",
        ),
        (
            "RECEIVE @a = message_body, @b = CAST(message_body AS INT) FROM q WHERE conversation_group_id = @g",
            "RECEIVE @a=message_body,@b=CAST(message_body AS BIGINT) FROM q WHERE conversation_group_id=(@g)",
        ),
        (
            "WAITFOR (RECEIVE * FROM q) WAITFOR (RECEIVE * FROM q), TIMEOUT 5",
            "waitfor(receive * from q); waitfor(receive * from q),timeout 5;",
        ),
        (
            "GET CONVERSATION GROUP @g FROM q WAITFOR (GET CONVERSATION GROUP @g FROM q), TIMEOUT @t",
            "get conversation group @g from dbo.q; waitfor (get conversation group @g from q), timeout (@t)",
        ),
    ] {
        assert!(rt; are_alike(&rt, rt.alloc(), one, other)?, "{other}");
    }
    Ok(())
}

#[test]
fn rows_in_two_spellings(rt: HostRuntime) -> Result<(), Fail> {
    for (one, other) in [
        (
            "INSERT INTO t (id, n, body) VALUES (1, NULL, 'it''s')",
            "insert dbo.t (ID,N,BODY) values (1,(null),N'it''s');",
        ),
        (
            "UPDATE t SET body = NULL, n = n - 1 - 2 WHERE id = 1 UPDATE t SET n = n + 1 WHERE id = @a",
            "update t set body = null, N = N - (1 - 2) where ID = 1; update t set n=n+1 where id=@a",
        ),
        (
            "UPDATE t SET n = 5 - 2 WHERE id = 1 DELETE FROM t WHERE id = 1",
            "update dbo.t set n = (5 - 2) where id = 1 delete t where id = (1);",
        ),
        (
            "SELECT @a = n, @b = body FROM t WHERE id = 7",
            "select @a=N,@b=BODY from dbo.t where id=7;",
        ),
        (
            "DECLARE @a BIGINT, @b NVARCHAR(10), @c SYSNAME = 'x', @d VARBINARY(8), @e UNIQUEIDENTIFIER",
            "declare @a as int, @b nvarchar(max), @c as nvarchar(1) = 'x', @d varbinary(max), @e uniqueidentifier;",
        ),
        (
            "SET @a = 0xAB SET NOCOUNT ON SET NOCOUNT OFF",
            "set @a=0xab; set nocount on; set nocount off",
        ),
    ] {
        assert!(rt; are_alike(&rt, rt.alloc(), one, other)?, "{other}");
    }
    Ok(())
}

#[test]
fn expressions_in_two_spellings(rt: HostRuntime) -> Result<(), Fail> {
    for (one, other) in [
        ("SET @a = 1 + 2 - 3 - @b", "set @a=(((1+2))-3)-@b;"),
        (
            "SET @a = @@ROWCOUNT SET @a = NULL SET @a = 7",
            "SET @a = @@rowcount SET @a = (null) SET @a = 007",
        ),
        (
            "SET @a = CAST(@b AS INT) + 1",
            "SET @a = cast ( (@b) as bigint ) + 1",
        ),
        (
            "IF @a = 1 OR @b <> 2 AND @c < 3 RETURN",
            "if @a = 1 or (@b <> 2 and (@c) < 3) return;",
        ),
        (
            "IF @a > 1 AND @b IS NULL AND @c IS NOT NULL RETURN ELSE RETURN",
            "IF ((@a > 1 AND @b IS NULL) AND @c IS NOT NULL) RETURN; ELSE RETURN",
        ),
        (
            "IF @a + 1 = 1 OR @b = 2 OR @c = 3 BEGIN RETURN END",
            "IF ((@a + (1)) = 1 OR @b = 2) OR @c = 3 begin return; end;",
        ),
        (
            "BEGIN TRAN COMMIT ROLLBACK RETURN",
            "/* a /* b */ */ begin transaction; commit work; rollback tran -- c\n return",
        ),
    ] {
        assert!(rt; are_alike(&rt, rt.alloc(), one, other)?, "{other}");
    }
    Ok(())
}

#[test]
fn statements_that_differ(rt: HostRuntime) -> Result<(), Fail> {
    for (one, other) in [
        ("SET @a = 1 - 2 - 3", "SET @a = 1 - (2 - 3)"),
        (
            "IF @a = 1 OR @b = 2 AND @c = 3 RETURN",
            "IF (@a = 1 OR @b = 2) AND @c = 3 RETURN",
        ),
        (
            "IF @a = 1 IF @b = 2 RETURN ELSE ROLLBACK",
            "IF @a = 1 IF @b = 2 ROLLBACK ELSE RETURN",
        ),
        (
            "UPDATE t SET n = n - 1 - 2 WHERE id = 1",
            "UPDATE t SET n = n - (1 + 2) WHERE id = 1",
        ),
        ("CREATE QUEUE q", "CREATE QUEUE Q"),
        ("SET @a = '1'", "SET @a = 1"),
    ] {
        assert!(rt; !are_alike(&rt, rt.alloc(), one, other)?, "{other}");
    }
    Ok(())
}

#[test]
fn statements_of_batches(rt: HostRuntime) {
    for (text, count) in [
        ("", 0),
        ("-- nothing", 0),
        ("RETURN RETURN; RETURN", 3),
        (
            "IF @a = 1 IF @b = 2 RETURN ELSE RETURN ELSE RETURN RETURN",
            2,
        ),
        ("IF @a = 1 IF @b = 2 RETURN; ELSE RETURN; RETURN", 2),
        ("IF @a = 1 RETURN;; RETURN", 2),
        ("BEGIN RETURN END CONVERSATION @h; BEGIN RETURN END END;", 1),
        (
            "CREATE BROKER PRIORITY p FOR CONVERSATION SET (PRIORITY_LEVEL = 1) SET @a = 1",
            2,
        ),
        (
            "SEND ON CONVERSATION @h (@b) BEGIN CONVERSATION TIMER (@h) TIMEOUT = 5",
            2,
        ),
        ("CREATE PROC p AS RETURN RETURN", 1),
    ] {
        reads(&rt, rt.alloc(), text, count);
    }
}

#[test]
fn bad_definitions(rt: HostRuntime) -> Result<(), Fail> {
    for marked in [
        "CREATE ^VIEW v",
        "CREATE MESSAGE ^m",
        "CREATE MESSAGE TYPE m VALIDATION = ^SOME",
        "CREATE MESSAGE TYPE m VALIDATION = NONE ^AUTHORIZATION a",
        "CREATE CONTRACT c^",
        "CREATE CONTRACT c (^)",
        "CREATE CONTRACT c (m SENT BY ^BOTH)",
        "CREATE SERVICE s ON ^q",
        "CREATE SERVICE s ON QUEUE q (^)",
        "CREATE ROUTE r WITH SERVICE_NAME = 's'^",
        "CREATE ROUTE r WITH ADDRESS = ^'local'",
        "CREATE ROUTE r WITH ADDRESS = ^'transport'",
        "CREATE ROUTE r WITH ADDRESS = ^'TCP://C:1'",
        "CREATE ROUTE r WITH ADDRESS = ^'TCP://A:'",
        "CREATE ROUTE r WITH BROKER_INSTANCE = ^'x', ADDRESS = 'LOCAL'",
        "CREATE ROUTE r WITH ADDRESS = 'LOCAL', ^ADDRESS = 'LOCAL'",
        "CREATE BROKER PRIORITY p FOR CONVERSATION SET (PRIORITY_LEVEL = ^'5')",
        "CREATE BROKER PRIORITY p FOR CONVERSATION SET (LOCAL_SERVICE_NAME = ^'s')",
        "CREATE TABLE t (id BIGINT PRIMARY KEY, n ^INT, body NVARCHAR(MAX))",
    ] {
        is_bad(&rt, rt.alloc(), marked)?;
    }
    Ok(())
}

#[test]
fn bad_queues(rt: HostRuntime) -> Result<(), Fail> {
    for marked in [
        "CREATE QUEUE dbo^",
        "CREATE QUEUE DBO ^WITH STATUS = ON",
        "CREATE QUEUE [dbo]^.q",
        "CREATE QUEUE q WITH^",
        "CREATE QUEUE q WITH STATUS = ON,^",
        "CREATE QUEUE q WITH STATUS = ON, ^STATUS = OFF",
        "CREATE QUEUE q WITH RETENTION = OFF, ^RETENTION = OFF",
        "CREATE QUEUE q WITH POISON_MESSAGE_HANDLING (^OFF)",
        "CREATE QUEUE q WITH ACTIVATION (PROCEDURE_NAME = p^)",
        "CREATE QUEUE q WITH ACTIVATION (STATUS = ON, MAX_QUEUE_READERS = 1^)",
        "CREATE QUEUE q WITH ACTIVATION (PROCEDURE_NAME = p, ^PROCEDURE_NAME = p)",
        "CREATE QUEUE q WITH STATUS = ON, RETENTION = OFF, ACTIVATION (PROCEDURE_NAME = p, MAX_QUEUE_READERS = 1), POISON_MESSAGE_HANDLING (STATUS = ON)^, STATUS = ON",
        "ALTER QUEUE q WITH ^RETENTION = OFF",
    ] {
        is_bad(&rt, rt.alloc(), marked)?;
    }
    Ok(())
}

#[test]
fn bad_dialogs(rt: HostRuntime) -> Result<(), Fail> {
    for marked in [
        "BEGIN DIALOG @h FROM SERVICE a TO SERVICE^",
        "BEGIN DIALOG @h FROM SERVICE a TO SERVICE 'b', ^'current database'",
        "BEGIN DIALOG @h FROM SERVICE a TO SERVICE 'b' WITH RELATED_CONVERSATION = @g, ^RELATED_CONVERSATION_GROUP = @g",
        "BEGIN DIALOG @h FROM SERVICE a TO SERVICE 'b' WITH ENCRYPTION = OFF, ^ENCRYPTION = OFF",
        "SEND ON CONVERSATION @h MESSAGE ^(@b)",
        "SEND ON CONVERSATION @h (@b^, @c)",
        "RECEIVE @a = message_body, ^message_body FROM q",
        "RECEIVE message_body, ^@a = message_body FROM q",
        "RECEIVE *^, message_body FROM q",
        "RECEIVE TOP ^1 * FROM q",
        "RECEIVE * FROM q WHERE ^message_body = @h",
        "WAITFOR (^MOVE CONVERSATION @h TO @g)",
        "WAITFOR (RECEIVE * FROM q), ^5",
        "GET CONVERSATION ^@g FROM q",
        "END CONVERSATION @h WITH ERROR = 1^",
        "END CONVERSATION @h WITH ^DESCRIPTION = 'x'",
        "BEGIN CONVERSATION TIMER ^@h TIMEOUT = 5",
    ] {
        is_bad(&rt, rt.alloc(), marked)?;
    }
    Ok(())
}

#[test]
fn bad_rows(rt: HostRuntime) -> Result<(), Fail> {
    for marked in [
        "INSERT INTO t (id, ^body, n) VALUES (1, 2, 3)",
        "INSERT t (id, n, body) VALUES (1, 2^)",
        "UPDATE t SET n = 1 + ^n WHERE id = 1",
        "UPDATE t SET n = n ^WHERE id = 1",
        "UPDATE t SET n = 1, ^n = 2 WHERE id = 1",
        "UPDATE t SET n = 1, body = 2^, n = 3 WHERE id = 1",
        "DELETE FROM t^",
        "SELECT @a = ^id FROM t WHERE id = 1",
        "DECLARE @a ^FLOAT",
        "DECLARE @a NVARCHAR^",
        "DECLARE @a NVARCHAR(^x)",
        "SET ^a = 1",
        "SET @a = 1 +^ -- nothing",
        "SET @a = ^-1",
        "SET @a = ^9223372036854775808",
        "SET @a = 0x^0",
        "SET @a = 1 ^= 1",
    ] {
        is_bad(&rt, rt.alloc(), marked)?;
    }
    Ok(())
}

#[test]
fn bad_flow(rt: HostRuntime) -> Result<(), Fail> {
    for marked in [
        "^;",
        "RETURN;^;",
        "RETURN ^5",
        "^ELSE RETURN",
        "END ^RETURN",
        "COMMIT ^CONVERSATION",
        "BEGIN ^QUEUE",
        "BEGIN END ^RETURN",
        "BEGIN END^",
        "BEGIN RETURN^\n",
        "IF @a ^RETURN",
        "IF @a = 1^",
        "IF (@a = 1) ^= 1 RETURN",
        "IF @a IS ^1 RETURN",
        "IF @a = 1 AND ^RETURN",
        "IF @a = 1 RETURN; ELSE^",
    ] {
        is_bad(&rt, rt.alloc(), marked)?;
    }
    Ok(())
}

#[test]
fn bad_procedures(rt: HostRuntime) -> Result<(), Fail> {
    for marked in [
        "RETURN CREATE ^PROC p AS RETURN",
        "CREATE PROC p^",
        "CREATE PROC p AS^",
        "CREATE PROC p AS COMMIT ^RETURN",
        "CREATE PROC p AS SET @a = 1 BEGIN TRAN BEGIN ^TRAN RETURN",
        "CREATE PROC p AS RETURN BEGIN ^TRAN",
        "CREATE PROC p AS BEGIN BEGIN ^TRANSACTION RETURN END",
        "CREATE PROC p AS IF @a = 1 ^COMMIT",
        "CREATE PROC p AS BEGIN RETURN ^COMMIT END",
        "CREATE PROC p AS ^CREATE QUEUE q",
        "CREATE PROC p AS ^ALTER QUEUE q WITH STATUS = ON",
    ] {
        is_bad(&rt, rt.alloc(), marked)?;
    }
    Ok(())
}

#[test]
fn barred_words(rt: HostRuntime) -> Result<(), Fail> {
    for (marked, what) in [
        (
            "CREATE MESSAGE TYPE m VALIDATION = ^WELL_FORMED_XML",
            Barred::WellFormedXml,
        ),
        (
            "CREATE MESSAGE TYPE m VALIDATION = ^valid_xml",
            Barred::ValidXml,
        ),
        ("CREATE QUEUE q WITH RETENTION = ^ON", Barred::On),
        (
            "BEGIN DIALOG @h FROM SERVICE a TO SERVICE 'b' WITH ENCRYPTION = ^on",
            Barred::On,
        ),
        (
            "CREATE ROUTE r WITH ADDRESS = ^N'TRANSPORT'",
            Barred::Transport,
        ),
        ("CREATE ROUTE r WITH ^LIFETIME = 5", Barred::Lifetime),
        (
            "CREATE ROUTE r WITH ADDRESS = 'LOCAL', ^MIRROR_ADDRESS = 'x'",
            Barred::MirrorAddress,
        ),
        ("RECEIVE * FROM q ^INTO @t", Barred::Into),
    ] {
        is_barred(&rt, rt.alloc(), marked, what)?;
    }
    Ok(())
}

#[test]
fn barred_statements(rt: HostRuntime) -> Result<(), Fail> {
    for (marked, what) in [
        ("^DROP QUEUE q", Barred::Drop),
        ("RETURN ^while", Barred::While),
        ("IF @a = 1 ^PRINT 'x'", Barred::Print),
        ("CREATE PROC p AS ^EXEC q", Barred::Exec),
        ("BEGIN ^EXECUTE q END", Barred::Execute),
        ("BEGIN RETURN ^USE x END", Barred::Use),
        ("IF @a = 1 RETURN ELSE ^SAVE TRAN x", Barred::Save),
        ("BEGIN ^TRY RETURN 'x", Barred::Try),
    ] {
        is_barred(&rt, rt.alloc(), marked, what)?;
    }
    Ok(())
}

#[test]
fn names(rt: HostRuntime) -> Result<(), Fail> {
    let alloc = rt.alloc();
    for word in [
        "any", "CREATE", "alter", "BEGIN", "commit", "ROLLBACK", "send", "WAITFOR", "receive",
        "GET", "move", "END", "insert", "UPDATE", "delete", "SELECT", "declare", "SET", "if",
        "RETURN",
    ] {
        let bare = format!(in alloc; "CREATE QUEUE ^{word}")?;
        is_bad(&rt, alloc, bare.as_str())?;
        let quoted = format!(in alloc; "CREATE QUEUE [{word}]")?;
        reads(&rt, alloc, quoted.as_str(), 1);
    }
    Ok(())
}

#[test]
fn more_names(rt: HostRuntime) -> Result<(), Fail> {
    let alloc = rt.alloc();
    for word in [
        "DROP", "while", "PRINT", "exec", "EXECUTE", "use", "SAVE", "try", "ELSE", "default", "_",
        "a$#@1", "\"\"\"\"", "[\u{e9}]",
    ] {
        let text = format!(in alloc; "CREATE QUEUE {word}")?;
        reads(&rt, alloc, text.as_str(), 1);
    }
    for marked in [
        "CREATE QUEUE ^[]",
        "CREATE QUEUE ^[a\nb]",
        "CREATE QUEUE ^\"\u{7f}\"",
        "CREATE QUEUE ^'a'",
    ] {
        is_bad(&rt, alloc, marked)?;
    }
    Ok(())
}

#[test]
fn lengths_of_names(rt: HostRuntime) -> Result<(), Fail> {
    let alloc = rt.alloc();
    let longest = nested(alloc, "CREATE QUEUE [", ("\u{e9}", "]", ""), 128)?;
    reads(&rt, alloc, longest.as_str(), 1);
    let longer = nested(alloc, "CREATE QUEUE ^[", ("\u{e9}", "]", ""), 129)?;
    is_bad(&rt, alloc, longer.as_str())?;
    Ok(())
}

#[test]
fn unlexed_places(rt: HostRuntime) -> Result<(), Fail> {
    for marked in [
        "^'x",
        "RETURN ^'x",
        "SEND ON ^'x",
        "RETURN ^/* x",
        "CREATE QUEUE ^[x",
        "SET @a = ^! RETURN;;",
        "RETURN; ^~ ;; 'x",
    ] {
        is_unlexed(&rt, rt.alloc(), marked)?;
    }
    is_bad(&rt, rt.alloc(), "SET ^SET 'x")?;
    is_bad(&rt, rt.alloc(), "RETURN ^5 ~")?;
    is_barred(&rt, rt.alloc(), "RETURN ^DROP ~", Barred::Drop)?;
    Ok(())
}

#[test]
fn nesting(rt: HostRuntime) -> Result<(), Fail> {
    let alloc = rt.alloc();
    for (front, parts, place) in [
        ("SET @a = ", ("(", "1", ")"), 73),
        ("SET @a = ", ("CAST(", "1", " AS INT)"), 329),
        ("", ("BEGIN ", "RETURN", " END"), 390),
        ("", ("IF @a = 1 ", "RETURN", ""), 640),
        ("", ("IF @a = 1 RETURN ELSE ", "RETURN", ""), 1408),
    ] {
        let deepest = nested(alloc, front, parts, 64)?;
        reads(&rt, alloc, deepest.as_str(), 1);
        let deeper = nested(alloc, front, parts, 65)?;
        refuses(
            &rt,
            alloc,
            deeper.as_str(),
            ParseRefused::BadStatement { at: place },
        );
    }
    Ok(())
}

#[test]
fn mixed_nesting(rt: HostRuntime) -> Result<(), Fail> {
    let alloc = rt.alloc();
    for inner in [
        "RETURN",
        "INSERT t (id, n, body) VALUES (1, 2, 3)",
        "WAITFOR (RECEIVE TOP (1) CAST(message_body AS INT) FROM q)",
        "BEGIN CONVERSATION TIMER (@h) TIMEOUT = 5",
    ] {
        let text = nested(alloc, "", ("IF @a = 1 BEGIN ", inner, " END"), 32)?;
        reads(&rt, alloc, text.as_str(), 1);
    }
    for inner in [
        "SET @a = ^(1)",
        "SEND ON CONVERSATION @h (^CAST(1 AS INT))",
        "^IF @a = 1 RETURN",
        "BEGIN ^RETURN END",
    ] {
        let marked = nested(alloc, "", ("IF @a = 1 BEGIN ", inner, " END"), 32)?;
        is_bad(&rt, alloc, marked.as_str())?;
    }
    Ok(())
}

#[test]
fn nesting_of_conditions(rt: HostRuntime) -> Result<(), Fail> {
    let alloc = rt.alloc();
    let mut deepest = nested(alloc, "IF ", ("(", "@a = 1", ")"), 63)?;
    deepest.push_str(" RETURN")?;
    reads(&rt, alloc, deepest.as_str(), 1);
    let mut deeper = nested(alloc, "IF ", ("(", "@a = 1", ")"), 64)?;
    deeper.push_str(" RETURN")?;
    refuses(
        &rt,
        alloc,
        deeper.as_str(),
        ParseRefused::BadStatement { at: 66 },
    );
    Ok(())
}

#[test]
fn each_beginning_of_a_batch(rt: HostRuntime) -> Result<(), Fail> {
    let alloc = rt.alloc();
    let text =
        "IF ( @a + 1 ) > 2 AND ( @b IS NULL ) BEGIN WAITFOR ( RECEIVE TOP ( 1 ) @c = CAST ( message_body AS NVARCHAR ( 9 ) ) FROM dbo . q ) , TIMEOUT 5 ; END CONVERSATION @h WITH ERROR = 1 DESCRIPTION = 'x' END ELSE CREATE QUEUE q WITH ACTIVATION ( EXECUTE AS SELF , PROCEDURE_NAME = p , MAX_QUEUE_READERS = 1 ) ; UPDATE t SET n = n - 1 , body = 'a' WHERE id = 7";
    let mut front = String::new(alloc);
    for word in text.split(' ') {
        front.push_str(word)?;
        match statements(alloc, front.as_str()) {
            Ok(_) => {}
            Err(why) => assert_eq!(rt;
                why,
                ParseRefused::BadStatement { at: front.len() },
                "{front}"
            ),
        }
        front.push(' ')?;
    }
    Ok(())
}

#[test]
fn many_statements(rt: HostRuntime) -> Result<(), Fail> {
    let alloc = rt.alloc();
    let text = nested(alloc, "", ("RETURN;", "", ""), 200_000)?;
    reads(&rt, alloc, text.as_str(), 200_000);
    Ok(())
}

#[test]
fn many_terms(rt: HostRuntime) -> Result<(), Fail> {
    let alloc = rt.alloc();
    for part in ["+1", "-@b", "+(1)"] {
        let text = nested(alloc, "SET @a = 1", (part, "", ""), 300_000)?;
        reads(&rt, alloc, text.as_str(), 1);
    }
    Ok(())
}

#[test]
fn many_conditions(rt: HostRuntime) -> Result<(), Fail> {
    let alloc = rt.alloc();
    for part in [" AND @a = 1", " OR @a = 1", " OR @a = 1 AND @b = 2"] {
        let mut text = nested(alloc, "IF @a = 1", (part, "", ""), 100_000)?;
        text.push_str(" RETURN")?;
        reads(&rt, alloc, text.as_str(), 1);
    }
    Ok(())
}

#[test]
fn trees(rt: HostRuntime) -> Result<(), Fail> {
    for (text, tree) in [
        (
            "SET @a = 1 + @@ROWCOUNT - 3 + NULL",
            "Sum(Boxed { inner: Number(1) }, Items { items: [Term { sign: Plus, operand: RowCount }, Term { sign: Minus, operand: Number(3) }, Term { sign: Plus, operand: Null }] })",
        ),
        (
            "SET @a = 1 - (2 + 3)",
            "Sum(Boxed { inner: Number(1) }, Items { items: [Term { sign: Minus, operand: Sum(Boxed { inner: Number(2) }, Items { items: [Term { sign: Plus, operand: Number(3) }] }) }] })",
        ),
        (
            "IF 1 = 2 AND 3 IS NULL AND 4 IS NOT NULL OR 5 < 6 RETURN",
            "Any(Items { items: [All(Items { items: [Compare(Equal, Number(1), Number(2)), IsNull(Number(3)), IsNotNull(Number(4))] }), Compare(Less, Number(5), Number(6))] })",
        ),
        (
            "IF (1 = 2 OR 3 IS NULL) AND 5 > 6 RETURN",
            "All(Items { items: [Any(Items { items: [Compare(Equal, Number(1), Number(2)), IsNull(Number(3))] }), Compare(Greater, Number(5), Number(6))] })",
        ),
    ] {
        let all = shown(&rt, rt.alloc(), text)?;
        assert!(rt; all.as_str().contains(tree), "{all}");
    }
    Ok(())
}

#[test]
fn procedures(rt: HostRuntime) -> Result<(), Fail> {
    let all = procedure(rt.alloc(), "AS BEGIN TRAN RETURN COMMIT");
    assert!(rt; matches!(&all, Ok(_)));
    assert_eq!(rt; all.map_or(0, |all| all.len()), 1);
    match procedure(rt.alloc(), "RETURN") {
        Ok(_) => assert!(rt; false),
        Err(why) => assert_eq!(rt; why, ParseRefused::BadStatement { at: 0 }),
    }
    Ok(())
}
