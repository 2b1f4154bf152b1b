//! The words of statements.

ghost use Rattle.std.specs.Prelude.{◌≡◌};
ghost use Rattle.sb_proc.specs.Words.{definition_words, waited_words, words_of};

use sb_grammar::{Statement, Waited};
use sb_log::Ddl;

/// The words by which a transcript names the statement.
pub fn words(statement: &Statement) -> &'static str
    ensures words { result.now ≡ words_of statement.now }
{
    match statement {
        Statement::Define(definition) => definition_words(definition),
        Statement::CreateProcedure { .. } => "CREATE PROCEDURE",
        Statement::AlterQueue { .. } => "ALTER QUEUE",
        Statement::BeginTransaction => "BEGIN TRANSACTION",
        Statement::Commit => "COMMIT",
        Statement::Rollback => "ROLLBACK",
        Statement::BeginDialog { .. } => "BEGIN DIALOG",
        Statement::Send { .. } => "SEND",
        Statement::Receive(_) => "RECEIVE",
        Statement::GetGroup(_) => "GET CONVERSATION GROUP",
        Statement::Waitfor { waited, .. } => waited_words(waited),
        Statement::Move { .. } => "MOVE",
        Statement::EndConversation { .. } => "END CONVERSATION",
        Statement::Timer { .. } => "BEGIN CONVERSATION TIMER",
        Statement::Insert { .. } => "INSERT",
        Statement::Update { .. } => "UPDATE",
        Statement::Delete { .. } => "DELETE",
        Statement::Select { .. } => "SELECT",
        Statement::Declare(_) => "DECLARE",
        Statement::Set { .. } | Statement::SetNoCount(_) => "SET",
        Statement::If { .. } => "IF",
        Statement::Block(_) => "BEGIN",
        Statement::Return => "RETURN",
    }
}

fn definition_words(definition: &Ddl) -> &'static str
    ensures { result.now ≡ definition_words definition.now }
{
    match definition {
        Ddl::MessageType(_) => "CREATE MESSAGE TYPE",
        Ddl::Contract(_) => "CREATE CONTRACT",
        Ddl::Queue(_) => "CREATE QUEUE",
        Ddl::Service(_) => "CREATE SERVICE",
        Ddl::Route(_) => "CREATE ROUTE",
        Ddl::Priority(_) => "CREATE BROKER PRIORITY",
        Ddl::Table(_) => "CREATE TABLE",
        Ddl::Procedure(_) => "CREATE PROCEDURE",
    }
}

// What is waited for names the statement.
fn waited_words(waited: &Waited) -> &'static str
    ensures { result.now ≡ waited_words waited.now }
{
    match waited {
        Waited::Receive(_) => "RECEIVE",
        Waited::GetGroup(_) => "GET CONVERSATION GROUP",
    }
}
