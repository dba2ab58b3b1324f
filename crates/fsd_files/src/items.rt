//! Items that a reply holds.
ghost use Rattle.std.specs.Prelude.{◌≡◌};

use std::marker::Model;

/// Items one after another, which a contract sees as a list.
#[derive(Drop)]
pub struct Items<T> {
    items: Vec<T>,
}

impl<T> Model for Items<T> {
    ghost use Rattle.std.specs.Prelude.{List};
    ghost use Rattle.std.specs.Coded.{coded_list};

    ghost Value = { List T };

    ghost coded = { coded_list T.code };

    ghost view = { λ i. i.items.items };
}

impl<T> From<Vec<T>> for Items<T> {
    ghost from_gives = { λ v i. i ≡ v.items };

    fn from(items: Vec<T>) -> Items<T> {
        Items { items }
    }
}

impl<T> Items<T> {
    /// The items in order.
    pub fn as_slice(&self) -> &[T]
        ensures { result.now ≡ self.now }
    {
        self.items.as_slice()
    }
}
