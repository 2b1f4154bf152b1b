//! What has a name.

use sb_log::{
    ContractDef, MessageDef, Name, PriorityDef, ProcedureDef, QueueDef, RouteDef, SentBy,
    ServiceDef, TableDef,
};

/// Something that is found by its name, or that names something.
pub(crate) trait Named {
    ghost use Rattle.std.specs.Prelude.{◌≡◌, List, ℕ};

    ghost name_bytes: { Self → List ℕ };

    fn name(&self) -> &Name
        ensures { result.now ≡ name_bytes self.now };
}

impl Named for Name {
    ghost name_bytes = { λ d. d };

    fn name(&self) -> &Name {
        self
    }
}

/// It names its message type.
impl Named for SentBy {
    ghost name_bytes = { λ d. d.kind };

    fn name(&self) -> &Name {
        &self.kind
    }
}

impl Named for MessageDef {
    ghost name_bytes = { λ d. d.name };

    fn name(&self) -> &Name {
        &self.name
    }
}

impl Named for ContractDef {
    ghost name_bytes = { λ d. d.name };

    fn name(&self) -> &Name {
        &self.name
    }
}

impl Named for QueueDef {
    ghost name_bytes = { λ d. d.name };

    fn name(&self) -> &Name {
        &self.name
    }
}

impl Named for ServiceDef {
    ghost name_bytes = { λ d. d.name };

    fn name(&self) -> &Name {
        &self.name
    }
}

impl Named for RouteDef {
    ghost name_bytes = { λ d. d.name };

    fn name(&self) -> &Name {
        &self.name
    }
}

impl Named for PriorityDef {
    ghost name_bytes = { λ d. d.name };

    fn name(&self) -> &Name {
        &self.name
    }
}

impl Named for TableDef {
    ghost name_bytes = { λ d. d.name };

    fn name(&self) -> &Name {
        &self.name
    }
}

impl Named for ProcedureDef {
    ghost name_bytes = { λ d. d.name };

    fn name(&self) -> &Name {
        &self.name
    }
}
