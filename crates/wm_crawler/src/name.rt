//! The name of a file in its folder; a short one takes no memory of its own.
//! Definitions: specs/NameTexts.antt. Tests: crawler_tests/src/crawls.rt.
ghost use Rattle.std.specs.Prelude.{◌≡◌, ◌<◌, ℕ, List, nat_eq, refl, slice_index, IfOk};
ghost use Rattle.std.specs.Ordering.{nat_cmp, as_partial_cmp};
ghost use Rattle.std.specs.Cmp.{partial_order_from_agreeing_total, partial_equiv_from_equiv};
ghost use Rattle.std.specs.Cmp.Lexicographic.{slice_cmp, pointwise, nat_list_cmp_total, nat_list_eq_equiv, texts_ties};
ghost use Rattle.wm_crawler.specs.NameTexts.{front_number, name_bytes};

use arrayvec::ArrayString;
use std::alloc::Global;
use std::cmp::Ordering;
use std::marker::Model;
use wm_disk::NoMemory;

/// A name's text. A short one lies in the value itself, since a crawl makes one of each file.
#[derive(Drop)]
pub(crate) enum NameText {
    /// At most 24 bytes.
    Short(ArrayString<24>),
    Long(String),
}

/// The name of what a folder holds. Names stand in the order of their bytes. Contracts see the bytes.
#[derive(Drop)]
pub(crate) struct Name {
    text: NameText,
    /// What the first 16 bytes spell. Where it differs it tells the order of two names, and mostly it does.
    front: u128,
}

impl Model for Name {
    ghost use Rattle.std.specs.Prelude.{List, ℕ};
    ghost use Rattle.wm_crawler.specs.NameTexts.{IsFront, name_bytes};

    ghost Value = { List ℕ };

    ghost view = { λ n. name_bytes n.text };

    ghost invariant = { λ n. IsFront n.front (name_bytes n.text) };
}

/// The first 16 bytes, with zeros behind fewer.
fn padded(bytes: &[u8]) -> [u8; 16]
    ensures { (i : ℕ) → i < 16 → slice_index result i ≡ slice_index bytes.now i }
{
    let mut front = [0u8; 16];
    let n = bytes.len().min(16);
    front[..n].copy_from_slice(&bytes[..n]);
    front
}

/// The number that the first 16 bytes spell, the greatest first.
fn front_of(bytes: &[u8]) -> u128
    ensures { result ≡ front_number bytes.now }
{
    u128::from_be_bytes(padded(bytes))
}

impl Name {
    /// The name with these bytes.
    pub(crate) fn new(alloc: Global, name: &str) -> Result<Name, NoMemory>
        ensures { IfOk result (λ n. n ≡ name.now) }
    {
        let front = front_of(name.as_bytes());
        if let Ok(short) = ArrayString::from(name) {
            let text = NameText::Short(short);
            return Ok(Name { text, front });
        }
        let long = String::from_str(alloc, name)?;
        let text = NameText::Long(long);
        Ok(Name { text, front })
    }

    /// The name's text.
    pub(crate) fn as_str(&self) -> &str
        ensures { result.now ≡ self.now }
    {
        match &self.text {
            NameText::Short(text) => text.as_str(),
            NameText::Long(text) => text.as_str(),
        }
    }

    /// The same name again.
    pub(crate) fn copy(&self, alloc: Global) -> Result<Name, NoMemory>
        ensures { IfOk result (λ n. n ≡ self.now) }
    {
        Name::new(alloc, self.as_str())
    }
}

impl PartialEq for Name {
    ghost eq = { pointwise nat_eq };

    ghost laws = { partial_equiv_from_equiv nat_list_eq_equiv };

    fn eq(&self, other: &Name) -> bool {
        self.as_str() == other.as_str()
    }
}

impl Eq for Name {
    ghost laws = { nat_list_eq_equiv };
}

impl Ord for Name {
    ghost cmp = { slice_cmp nat_cmp };

    ghost total = { nat_list_cmp_total };

    ghost matches_partial_cmp = { λ x y. refl };

    ghost matches_eq = { λ x y. texts_ties x y };

    fn cmp(&self, other: &Name) -> Ordering {
        if self.front != other.front {
            return self.front.cmp(&other.front);
        }
        self.as_str().cmp(other.as_str())
    }
}

impl PartialOrd for Name {
    ghost partial_cmp = { as_partial_cmp (slice_cmp nat_cmp) };

    ghost laws = { partial_order_from_agreeing_total (slice_cmp nat_cmp) nat_list_cmp_total (λ x y. refl) (λ x y. texts_ties x y) };

    fn partial_cmp(&self, other: &Name) -> Option<Ordering> {
        Some(self.cmp(other))
    }
}
