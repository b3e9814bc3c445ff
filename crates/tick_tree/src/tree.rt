//! The tree of a whole text.

ghost use Rattle.std.specs.Prelude.{◌≡◌};
ghost use Rattle.tick_tree.specs.Texts.{IsText};

use crate::syntax::External;
use sqlite_items::Items;
use std::marker::Model;

/// The syntax tree of a text of at most 262,144 tokens, which contracts see as its items.
///
/// Behind the name of each function stands its list of parameters at once, and the tree has at most 1,048,577 nodes.
pub struct Tree {
    items: Items<External>,
}

impl Drop for Tree {
    fn drop(self) {
        let Tree { items: _ } = self;
    }
}

impl Model for Tree {
    ghost use Rattle.tick_tree.specs.Items.{TreeItems, items_code};

    ghost Value = { TreeItems };

    ghost coded = { items_code };

    ghost use Rattle.tick_tree.specs.Texts.{IsText};

    ghost view = { λ t. record { items = t.items } };

    ghost invariant = { λ t. IsText t.items };
}

impl Tree {
    /// The tree of these items, which are those of a text.
    pub fn new(items: Items<External>) -> Self
        requires { IsText items }
        ensures { result ≡ record { items = items } }
    {
        Tree { items }
    }

    /// Its items, from first to last.
    pub fn items(&self) -> &[External]
        ensures { result.now ≡ self.now.items }
    {
        self.items.as_slice()
    }

    /// That its items are those of a text.
    pub fn keeps_law(&self)
        ensures { IsText self.now.items }
    {
        let _ = &self.items;
    }
}
