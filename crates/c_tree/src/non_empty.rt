//! Lists that are not empty, and how they are gone through.
ghost use Rattle.std.specs.Prelude.{◌≡◌, []};
ghost use Rattle.c_tree.specs.NonEmpty.{items, left};

/// One or more, in the order of the text.
#[derive(Drop)]
pub struct NonEmpty<T> {
    pub first: T,
    pub others: Vec<T>,
}

/// What is left of a list, in the order of the text.
#[derive(Drop)]
pub struct Iter<'a, T> {
    first: Option<&'a T>,
    others: &'a [T],
}

impl<'a, T> Iterator for Iter<'a, T> {
    type Item = &'a T;

    ghost use Rattle.std.specs.Iterator.{YieldsFirstRef, item_count};
    ghost use Rattle.c_tree.specs.NonEmpty.{left};

    ghost next_gives = { YieldsFirstRef left };

    ghost remaining = { item_count left };

    fn next(&mut self) -> Option<&'a T> {
        match self.first {
            Some(one) => {
                self.first = None;
                Some(one)
            }
            None => {
                let (one, others) = self.others.split_first()?;
                self.others = others;
                Some(one)
            }
        }
    }
}

impl<T> NonEmpty<T> {
    /// Each, in the order of the text.
    pub fn iter(&self) -> Iter<'_, T>
        ensures { left result ≡ items self.now }
    {
        Iter {
            first: Some(&self.first),
            others: self.others.as_slice(),
        }
    }
}

impl<'a, T> Iter<'a, T> {
    /// No items.
    pub fn none() -> Iter<'a, T>
        ensures { left result ≡ [] }
    {
        Iter {
            first: None,
            others: &[],
        }
    }
}
