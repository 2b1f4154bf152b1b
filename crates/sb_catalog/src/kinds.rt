//! The kinds of definitions.

ghost use Rattle.std.specs.Prelude.{◌≡◌};
ghost use Rattle.sb_catalog.specs.Kinds.{kind_of, name_of};

use sb_log::{Ddl, Name};

/// The kind of a definition. Two definitions of different kinds may have one name.
#[derive(Clone, Copy, Debug, PartialEq, Eq)]
pub enum Kind {
    MessageType,
    Contract,
    Queue,
    Service,
    Route,
    Priority,
    Table,
    Procedure,
}

pub(crate) fn kind_of(ddl: &Ddl) -> Kind
    ensures { result ≡ kind_of ddl.now }
{
    match ddl {
        Ddl::MessageType(_) => Kind::MessageType,
        Ddl::Contract(_) => Kind::Contract,
        Ddl::Queue(_) => Kind::Queue,
        Ddl::Service(_) => Kind::Service,
        Ddl::Route(_) => Kind::Route,
        Ddl::Priority(_) => Kind::Priority,
        Ddl::Table(_) => Kind::Table,
        Ddl::Procedure(_) => Kind::Procedure,
    }
}

pub(crate) fn name_of(ddl: &Ddl) -> &Name
    ensures { result.now ≡ name_of ddl.now }
{
    match ddl {
        Ddl::MessageType(def) => &def.name,
        Ddl::Contract(def) => &def.name,
        Ddl::Queue(def) => &def.name,
        Ddl::Service(def) => &def.name,
        Ddl::Route(def) => &def.name,
        Ddl::Priority(def) => &def.name,
        Ddl::Table(def) => &def.name,
        Ddl::Procedure(def) => &def.name,
    }
}
