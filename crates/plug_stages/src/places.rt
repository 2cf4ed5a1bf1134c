//! The places of what a caller hands in.

ghost use Rattle.std.specs.Prelude.{◌≡◌, ◌<◌, List, [], ◌∷◌, length, set, Some, None, IfSome, is_some, position, true};
ghost use Rattle.std.specs.Option.{option_map};
ghost use Rattle.plug_stages.specs.Handed.{at_place, filter_nature, IsTaken, named_in, natures_from, tally_nature_at};

use crate::{BoxedFilter, BoxedTally, PlugFilter, PlugTally};

/// Filters and tallies, each in a place: an index into one of the two lists, counted from 0, which stays that of what the
/// caller put there. A place is empty where the caller put nothing, and while what stood there is at work.
#[derive(Drop)]
pub struct Places<P: Drop, Q: Drop> {
    /// The filters, which stages of the type `filters.plug` name.
    pub filters: Vec<Option<P>>,

    /// The tallies, which stages of the type `writers.tally` name.
    pub tallies: Vec<Option<Q>>,
}

/// What a caller hands in.
pub type Plugs = Places<BoxedFilter, BoxedTally>;

/// Whether a place holds a filter of this name.
fn is_filter<P: PlugFilter>(place: &Option<P>, name: &str) -> bool
    ensures { result ≡ is_some (named_in (option_map (filter_nature P.PlugFilter 0) place.now ∷ []) name.now) }
{
    match place {
        Some(filter) => filter.name() == name,
        None => false,
    }
}

/// The first place that holds a filter of this name; None exactly where there is none.
fn filter_place<P: PlugFilter>(filters: &Vec<Option<P>>, name: &str) -> Option<usize>
    ensures first { result ≡ position
        (λ o. is_some (named_in (option_map (filter_nature P.PlugFilter 0) o ∷ []) name.now)) filters.now.items }
    ensures inside { IfSome result (λ at. at < length filters.now.items) }
    ensures held { IfSome result (λ at. is_some (at_place filters.now.items at) ≡ true) }
{
    filters.iter().position(|place| is_filter(place, name))
}

/// Whether there is a filter of this name.
pub fn has_filter<P: PlugFilter>(filters: &Vec<Option<P>>, name: &str) -> bool
    ensures { result ≡ is_some (named_in (natures_from (filter_nature P.PlugFilter) 0 filters.now.items) name.now) }
{
    filter_place(filters, name).is_some()
}

/// Takes out the first filter of this name, with its place. None exactly where there is none of this name; then all stay.
pub fn take_filter<P: PlugFilter>(filters: &mut Vec<Option<P>>, name: &str) -> Option<(P, usize)>
    ensures taken { IfSome result (λ t. IsTaken (filter_nature P.PlugFilter) name.now
        filters.old.items filters.new.items t.1 t.0) }
    ensures none { result ≡ None → (filters.new.items ≡ filters.old.items)
        × (named_in (natures_from (filter_nature P.PlugFilter) 0 filters.old.items) name.now ≡ None) }
{
    let at = filter_place(filters, name)?;
    Some((take_out(filters, at), at))
}

/// Whether a place holds a tally of this name.
fn is_tally<Q: PlugTally>(place: &Option<Q>, name: &str) -> bool
    ensures { result ≡ is_some (named_in (option_map (tally_nature_at Q.PlugTally 0) place.now ∷ []) name.now) }
{
    match place {
        Some(tally) => tally.name() == name,
        None => false,
    }
}

/// The first place that holds a tally of this name; None exactly where there is none.
fn tally_place<Q: PlugTally>(tallies: &Vec<Option<Q>>, name: &str) -> Option<usize>
    ensures first { result ≡ position
        (λ o. is_some (named_in (option_map (tally_nature_at Q.PlugTally 0) o ∷ []) name.now)) tallies.now.items }
    ensures inside { IfSome result (λ at. at < length tallies.now.items) }
    ensures held { IfSome result (λ at. is_some (at_place tallies.now.items at) ≡ true) }
{
    tallies.iter().position(|place| is_tally(place, name))
}

/// Whether there is a tally of this name.
pub fn has_tally<Q: PlugTally>(tallies: &Vec<Option<Q>>, name: &str) -> bool
    ensures { result ≡ is_some (named_in (natures_from (tally_nature_at Q.PlugTally) 0 tallies.now.items) name.now) }
{
    tally_place(tallies, name).is_some()
}

/// Takes out the first tally of this name, with its place. None exactly where there is none of this name; then all stay.
pub fn take_tally<Q: PlugTally>(tallies: &mut Vec<Option<Q>>, name: &str) -> Option<(Q, usize)>
    ensures taken { IfSome result (λ t. IsTaken (tally_nature_at Q.PlugTally) name.now
        tallies.old.items tallies.new.items t.1 t.0) }
    ensures none { result ≡ None → (tallies.new.items ≡ tallies.old.items)
        × (named_in (natures_from (tally_nature_at Q.PlugTally) 0 tallies.old.items) name.now ≡ None) }
{
    let at = tally_place(tallies, name)?;
    Some((take_out(tallies, at), at))
}

/// What stands in a place, taken out.
fn take_out<X>(places: &mut Vec<Option<X>>, at: usize) -> X
    requires inside { at < length places.old.items }
    requires held { is_some (at_place places.old.items at) ≡ true }
    ensures taken { at_place places.old.items at ≡ Some result }
    ensures left { places.new.items ≡ set places.old.items at None }
{
    match places[at].take() {
        Some(taken) => taken,
        None => unreachable!(),
    }
}

/// Puts something into a place, if there is one of this number.
pub fn put_back<X: Drop>(places: &mut Vec<Option<X>>, at: usize, back: X)
    ensures { places.new.items ≡ set places.old.items at (Some back) }
{
    if at < places.len() {
        places[at] = Some(back);
    }
}
