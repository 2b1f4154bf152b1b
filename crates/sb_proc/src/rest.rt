//! What is left of a block.

ghost use Rattle.std.specs.Prelude.{◌≡◌, [], ◌∷◌, ◌++◌, slice_get, option_copied, option_to_list, drop, OnOk, IfOk};

use sqlite_items::Items;
use std::alloc::{AllocError, Global};
use std::collections::VecDeque;
use std::marker::Model;
use std::mem;

/// The items that come next, of the innermost block first. Each is moved once when its block is
/// opened and once when it is taken, however many stand behind it.
#[derive(Drop)]
pub struct Rest<T> {
    opened: Items<T>,
    others: VecDeque<T>,
}

impl<T> Model for Rest<T> {
    ghost use Rattle.std.specs.Prelude.{List, ◌++◌};
    ghost use Rattle.std.specs.Coded.{coded_list};

    ghost Value = { List T };

    ghost coded = { coded_list T.code };

    ghost view = { λ r. r.opened ++ r.others.items };
}

impl<T> Rest<T> {
    /// A block; it takes no memory.
    pub fn new(alloc: Global, block: Items<T>) -> Rest<T>
        ensures { result ≡ block }
    {
        Rest {
            opened: block,
            others: VecDeque::new(alloc),
        }
    }

    pub fn first(&self) -> Option<&T>
        ensures { option_copied result ≡ slice_get self.now 0 }
    {
        match self.opened.as_slice().first() {
            Some(item) => Some(item),
            None => self.others.front(),
        }
    }
}

impl<T: Drop> Rest<T> {
    /// Takes the first away.
    pub fn take_first(&mut self) -> Result<Option<T>, AllocError>
        ensures taken { IfOk result (λ first. self.old ≡ option_to_list first ++ self.new) }
        ensures rest { OnOk result (self.new ≡ drop 1 self.old) }
    {
        lay_out(&mut self.opened, &mut self.others)?;
        Ok(self.others.pop_front())
    }

    pub fn drop_first(&mut self) -> Result<(), AllocError>
        ensures { OnOk result (self.new ≡ drop 1 self.old) }
    {
        lay_out(&mut self.opened, &mut self.others)?;
        mem::drop(self.others.pop_front());
        Ok(())
    }

    /// Puts a block in front.
    pub fn put(&mut self, block: Items<T>) -> Result<(), AllocError>
        ensures { OnOk result (self.new ≡ block ++ self.old) }
    {
        lay_out(&mut self.opened, &mut self.others)?;
        self.opened = block;
        Ok(())
    }

    pub fn clear(&mut self, alloc: Global)
        ensures { self.new ≡ [] }
    {
        self.opened = Items::new(alloc);
        self.others.clear();
    }
}

// Puts the opened block's items before the others.
fn lay_out<T: Drop>(opened: &mut Items<T>, others: &mut VecDeque<T>) -> Result<(), AllocError>
    ensures laid { OnOk result (others.new.items ≡ opened.old ++ others.old.items) }
    ensures none { OnOk result (opened.new ≡ []) }
{
    'items: while let Some(item) = opened.pop() {
        others.push_front(item)?;
    }
    Ok(())
}
