ghost use Rattle.std.specs.Prelude.{◌≡◌};
ghost use Rattle.voy_schema.specs.Abbreviations.{AbbreviatesItems};

use crate::abbreviating::Abbreviate;
use crate::copying::Copies;
use crate::items::Items;
use std::alloc::AllocError;
use std::marker::Model;

/// A list of values by which rows are found, as the texts of a key. Contracts see it as the list of its
/// values.
///
/// Beside the values stands the abbreviated key of the first one ([`Abbreviate`]), which decides most
/// comparisons. So a map of tuples seldom reads the values themselves.
#[derive(Debug, Drop)]
pub struct Tuple<T: Abbreviate> {
    pub(crate) abbreviation: u64,
    pub(crate) items: Items<T>,
}

impl<T: Abbreviate> Model for Tuple<T> {
    ghost use Rattle.std.specs.Prelude.{List};
    ghost use Rattle.std.specs.Coded.{coded_list};
    ghost use Rattle.voy_schema.specs.Abbreviations.{AbbreviatesItems};

    ghost Value = { List T };

    ghost coded = { coded_list T.code };

    ghost view = { λ t. t.items };

    ghost invariant = { λ t. AbbreviatesItems T.abbreviates t.items t.abbreviation };
}

impl<T: Abbreviate> Tuple<T> {
    /// These values, with no memory taken.
    pub fn new(items: Items<T>) -> Tuple<T>
        ensures { result ≡ items }
    {
        let abbreviation = abbreviation_of(items.as_slice());
        Tuple {
            abbreviation,
            items,
        }
    }

    pub fn as_slice(&self) -> &[T]
        ensures { result.now ≡ self.now }
    {
        self.items.as_slice()
    }
}

/// The abbreviated key of the first item; 0 where there is none.
fn abbreviation_of<T: Abbreviate>(items: &[T]) -> u64
    ensures { AbbreviatesItems T.abbreviates items.now result }
{
    match items.first() {
        Some(item) => item.abbreviation(),
        None => 0,
    }
}

impl<T: Abbreviate + Copies + Drop> Copies for Tuple<T> {
    fn copy(&self) -> Result<Self, AllocError> {
        let items = self.items.copy()?;
        Ok(Tuple {
            abbreviation: self.abbreviation,
            items,
        })
    }
}
