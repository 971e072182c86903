//! One pass over the items of a body.
ghost use Rattle.std.specs.Prelude.{◌≡◌, ◌↔◌, ℕ, ◌+◌, ◌*◌, ◌/◌};
ghost use Rattle.std.specs.Prelude.{◌<◌, ◌≤◌, [], List, length, None, Some};
ghost use Rattle.std.specs.Prelude.{IfSome, OnSome, IsTrue, MatchOption, slice_index, OnOk, IfErr};
ghost use Rattle.std.specs.Prelude.{nat_le, if◌then◌else◌};
ghost use Rattle.std.specs.List.{AllByRecursion};
ghost use Rattle.sst_block_core.specs.Body.{items_at};
ghost use Rattle.sst_block_core.specs.Found.{IsRange, range_bytes};
ghost use Rattle.sst_block_core.specs.KeyRanges.{IsKeyRanges, IsVersion};
ghost use Rattle.sst_block_core.specs.Passes.{HasNoHead, IsAlong, GoesOn, IsPassed, IsFound};
ghost use Rattle.sst_block_core.specs.Passes.{trailer_by, IsItemsRefusal};
ghost use Rattle.sst_block_core.specs.Stages.{HasParts, HasForms, HasOrder, HasPointers, body_in};
ghost use Rattle.sst_block_core.specs.Stages.{items_by};

use crate::table::block::ParsedItem;
use crate::table::block::binary_index::Reader;
use crate::table::block::check::Checkable;
use crate::table::block::check::keys::{KeyRanges, KeyVersion, head_keeps_order, keeps_order};
use crate::table::block::check::tally::{KeySink, NoTally};
use crate::table::block::trailer::TrailerNumbers;
use sst_base::table::util::SliceIndexes;
use sst_base::{Error, Result, Steps};

// Returns the key and the sequence number of an item.
#[inline(always)]
fn version_of<Item: Checkable<Parsed>, Parsed: ParsedItem<Item>>(item: &Parsed) -> KeyVersion
    ensures { (payload : List ℕ) → Parsed.is_found payload item.now
        → IsVersion Item.kind payload (Parsed.item_of payload item.now) result }
{
    KeyVersion {
        key: Item::key_ranges(item),
        seqno: item.seqno(),
    }
}

// The same of an item in full form, its key as the prefix that those after it share.
#[inline(always)]
fn head_version_of<Item: Checkable<Parsed>, Parsed: ParsedItem<Item>>(item: &Parsed) -> KeyVersion
    ensures version { (payload : List ℕ) → Parsed.is_found payload item.now
        → Parsed.shared_len item.now ≡ 0
        → IsVersion Item.kind payload (Parsed.item_of payload item.now) result }
    ensures prefix { (payload : List ℕ) → Parsed.shared_len item.now ≡ 0
        → Item.kind.key (Parsed.item_of payload item.now) ≡ range_bytes payload result.key.prefix }
{
    let key = Item::key_ranges(item).rest;
    KeyVersion {
        key: KeyRanges {
            prefix: key,
            rest: SliceIndexes(key.1, key.1),
        },
        seqno: item.seqno(),
    }
}

// Returns whether the pointer of a head is the offset of its form.
#[inline(always)]
fn is_pointed(pointers: &Reader<'_>, number: usize, offset: usize) -> bool
    requires { number < length pointers.now }
    ensures { IsTrue result ↔ (slice_index pointers.now number ≡ offset) }
{
    pointers.get(number) == offset
}

/// What one pass over the items of a body found of them.
#[derive(Clone, Copy)]
pub(crate) struct Passed {
    /// All items are what the check requires beyond their forms.
    pub(crate) all_fit: bool,
    /// No item sorts before its predecessor.
    pub(crate) is_ordered: bool,
    /// Each pointer is the offset of its head.
    pub(crate) is_indexed: bool,
}

/// How far a pass has read, and what it found of the items before.
#[derive(Clone, Copy)]
pub(crate) struct PassState {
    /// The offset of the next form.
    pub(crate) offset: usize,
    /// The key and the sequence number of the last item.
    pub(crate) last: KeyVersion,
    /// What the pass found.
    pub(crate) passed: Passed,
}

// Passes over a head, whose interval has this number; the first result is the range of its key.
// Returns `None` where no full form is encoded.
#[inline(always)]
fn pass_head<Item: Checkable<Parsed>, Parsed: ParsedItem<Item> + Drop, Sink: KeySink<Item>>(
    body: &[u8],
    pointers: &Reader<'_>,
    number: usize,
    from: &PassState,
    sink: &mut Sink,
) -> Option<(SliceIndexes, PassState)>
    requires number { number < length pointers.now }
    requires inside { from.now.offset ≤ length body.now }
    requires last { IsKeyRanges body.now from.now.last.key }
    ensures exact { (r : ℕ) (xs : List Item) (base : SliceIndexes) → 0 < r
        → length xs ≡ number * r
        → IsAlong Item.kind Item.fits r body.now pointers.now xs base from.now
        → MatchOption result
        ((n : ℕ) → length xs < n → items_at Item.kind r 0 n [] body.now ≡ None)
        (λ h. GoesOn Item.kind Item.fits r body.now pointers.now (length xs + 1) h.0 h.1
        (λ ys. (b : ℕ) → Sink.has_taken r b body.now sink.old xs
        → Sink.has_taken r b body.now sink.new ys)) }
    ensures base { IfSome result (λ h. IsRange body.now h.0) }
{
    let mut steps = Steps::new();
    let (item, offset) = Item::parse_full(body, from.offset, &mut steps)?;
    let version = head_version_of::<Item, Parsed>(&item);
    let passed = Passed {
        all_fit: from.passed.all_fit & Item::fits(&item),
        is_ordered: from.passed.is_ordered & head_keeps_order(body, &from.last, version),
        is_indexed: from.passed.is_indexed & is_pointed(pointers, number, from.offset),
    };
    sink.take(body, &version.key, true);
    let to = PassState {
        offset,
        last: version,
        passed,
    };
    Some((version.key.prefix, to))
}

// Passes over this many truncated forms after a head, whose key has this range. Returns `None`
// where one of them is not encoded.
fn pass_rest<Item: Checkable<Parsed>, Parsed: ParsedItem<Item> + Drop, Sink: KeySink<Item>>(
    body: &[u8],
    base: &SliceIndexes,
    len: usize,
    from: &PassState,
    sink: &mut Sink,
) -> Option<PassState>
    requires base { IsRange body.now base.now }
    requires inside { from.now.offset ≤ length body.now }
    requires last { IsKeyRanges body.now from.now.last.key }
    ensures exact { (r : ℕ) (pointers : List ℕ) (xs : List Item) → 0 < r
        → HasNoHead r (length xs) len
        → IsAlong Item.kind Item.fits r body.now pointers xs base.now from.now
        → MatchOption result
        ((n : ℕ) → length xs + len ≤ n → items_at Item.kind r 0 n [] body.now ≡ None)
        (λ to. GoesOn Item.kind Item.fits r body.now pointers (length xs + len) base.now to
        (λ ys. (b : ℕ) → Sink.has_taken r b body.now sink.old xs
        → Sink.has_taken r b body.now sink.new ys)) }
{
    let mut at = *from;
    for step in 0..len {
        let (item, offset) = Item::parse_exactly(body, at.offset, base)?;
        let version = version_of::<Item, Parsed>(&item);
        let passed = Passed {
            all_fit: at.passed.all_fit & Item::fits(&item),
            is_ordered: at.passed.is_ordered & keeps_order(body, &at.last, &version),
            is_indexed: at.passed.is_indexed,
        };
        sink.take(body, &version.key, false);
        at = PassState {
            offset,
            last: version,
            passed,
        };
    }
    Some(at)
}

// The number of truncated forms of a restart interval, where this many items are left.
#[inline(always)]
fn rest_len(restart_interval: u8, left: usize) -> usize
    requires some { 0 < restart_interval }
    requires left { 0 < left }
    ensures few { result + 1 ≤ restart_interval }
    ensures inside { result + 1 ≤ left }
    ensures full { result + 1 < left → result + 1 ≡ restart_interval }
{
    let most = usize::from(restart_interval);
    if left < most { left - 1 } else { most - 1 }
}

/// Passes over the first `count` items of a body once, and returns what it found of them; the sink
/// takes their keys. Returns `None` if the body is not that many forms and nothing else.
pub(crate) fn pass_over<
    Item: Checkable<Parsed>,
    Parsed: ParsedItem<Item> + Drop,
    Sink: KeySink<Item>,
>(
    body: &[u8],
    pointers: &Reader<'_>,
    restart_interval: u8,
    count: usize,
    sink: &mut Sink,
) -> Option<Passed>
    requires some { 0 < restart_interval }
    requires pointers { (place : ℕ) → place < count
        → place / restart_interval < length pointers.now }
    ensures exact { MatchOption result
        ((xs : List Item)
        → items_at Item.kind restart_interval 0 count [] body.now ≡ Some (xs, []) → ⊥)
        (λ p.
        IsPassed Item.kind Item.fits restart_interval count body.now pointers.now p.all_fit
        p.is_ordered p.is_indexed) }
    ensures taken { OnSome result
        ((b : ℕ) (xs : List Item) → Sink.has_taken restart_interval b body.now sink.old []
        → items_at Item.kind restart_interval 0 count [] body.now ≡ Some (xs, [])
        → Sink.has_taken restart_interval b body.now sink.new xs) }
{
    let mut place = 0;
    let mut number = 0;
    let mut at = PassState {
        offset: 0,
        last: KeyVersion::least(),
        passed: Passed {
            all_fit: true,
            is_ordered: true,
            is_indexed: true,
        },
    };
    while place < count {
        let (base, head) = pass_head::<Item, Parsed, Sink>(body, pointers, number, &at, sink)?;
        let len = rest_len(restart_interval, count - place);
        at = pass_rest::<Item, Parsed, Sink>(body, &base, len, &head, sink)?;
        place = place + 1 + len;
        number = number + 1;
    }
    if at.offset != body.len() {
        return None;
    }
    Some(at.passed)
}

// Returns whether a pointer width is the least that serves this last pointer.
#[inline(always)]
fn is_least_width(width: u8, last: usize) -> bool
    ensures { IsTrue result ↔ (width ≡ (if nat_le last 65535 then 2 else 4)) }
{
    if last <= 65535 {
        width == 2
    } else {
        width == 4
    }
}

// Passes over the items of a payload, whose trailer fits it, and says what it found of them and of
// their pointers, with the width. `None` where the body is not as many forms as the trailer says,
// and nothing else. The sink takes the keys.
fn pass_payload<Item: Checkable<Parsed>, Parsed: ParsedItem<Item> + Drop, Sink: KeySink<Item>>(
    payload: &[u8],
    t: &TrailerNumbers,
    sink: &mut Sink,
) -> Option<Passed>
    requires { HasParts (trailer_by t.now) payload.now }
    ensures exact { MatchOption result (HasForms Item.kind (trailer_by t.now) payload.now → ⊥)
        (λ p.
        IsFound Item.kind Item.fits (trailer_by t.now) payload.now p.all_fit p.is_ordered
        p.is_indexed) }
    ensures taken { OnSome result
        ((b : ℕ)
        → Sink.has_taken t.now.interval b (body_in (trailer_by t.now) payload.now) sink.old []
        → Sink.has_taken t.now.interval b (body_in (trailer_by t.now) payload.now) sink.new
        (items_by Item.kind (trailer_by t.now) payload.now)) }
{
    let (body, _) = payload.split_at(t.index_offset as usize - 1);
    let pointers = Reader::new(payload, t.index_offset, t.heads, t.width);
    let count = t.item_count as usize;
    let mut passed = pass_over::<Item, Parsed, Sink>(body, &pointers, t.interval, count, sink)?;
    let last = pointers.get(t.heads as usize - 1);
    passed.is_indexed = passed.is_indexed & is_least_width(t.width, last);
    Some(passed)
}

/// Checks the items of a payload, whose trailer fits it, and their pointers, in one pass; the sink
/// takes their keys.
///
/// # Errors
///
/// `Error::BadEntry` if the body is not as many forms as the trailer says, and nothing else; that
/// of [`Checkable::unfit`] if an item does not fit; `Error::OutOfOrder` if an item sorts before its
/// predecessor; `Error::BadIndex` if a pointer is not the offset of its head, or the pointer width
/// is not the least that serves. The first of these that holds.
pub(crate) fn check_items_with<
    Item: Checkable<Parsed>,
    Parsed: ParsedItem<Item> + Drop,
    Sink: KeySink<Item>,
>(payload: &[u8], t: &TrailerNumbers, sink: &mut Sink) -> Result<()>
    requires { HasParts (trailer_by t.now) payload.now }
    ensures forms { OnOk result (HasForms Item.kind (trailer_by t.now) payload.now) }
    ensures fit { OnOk result
        (AllByRecursion Item.fits (items_by Item.kind (trailer_by t.now) payload.now)) }
    ensures order { OnOk result (HasOrder Item.kind (trailer_by t.now) payload.now) }
    ensures pointers { OnOk result (HasPointers Item.kind (trailer_by t.now) payload.now) }
    ensures taken { OnOk result
        ((b : ℕ)
        → Sink.has_taken t.now.interval b (body_in (trailer_by t.now) payload.now) sink.old []
        → Sink.has_taken t.now.interval b (body_in (trailer_by t.now) payload.now) sink.new
        (items_by Item.kind (trailer_by t.now) payload.now)) }
    ensures refused { IfErr result
        (IsItemsRefusal Item.kind Item.fits Item.unfit (trailer_by t.now) payload.now) }
{
    let Some(passed) = pass_payload::<Item, Parsed, Sink>(payload, t, sink) else {
        return Err(Error::BadEntry);
    };
    if !passed.all_fit {
        return Err(Item::unfit());
    }
    if !passed.is_ordered {
        return Err(Error::OutOfOrder);
    }
    if !passed.is_indexed {
        return Err(Error::BadIndex);
    }
    Ok(())
}

/// Checks the items of a payload, whose trailer fits it, and their pointers, in one pass. Takes no
/// memory.
///
/// # Errors
///
/// `Error::BadEntry` if the body is not as many forms as the trailer says, and nothing else; that
/// of [`Checkable::unfit`] if an item does not fit; `Error::OutOfOrder` if an item sorts before its
/// predecessor; `Error::BadIndex` if a pointer is not the offset of its head, or the pointer width
/// is not the least that serves. The first of these that holds.
pub fn check_items<Item: Checkable<Parsed>, Parsed: ParsedItem<Item> + Drop>(
    payload: &[u8],
    t: &TrailerNumbers,
) -> Result<()>
    requires { HasParts (trailer_by t.now) payload.now }
    ensures forms { OnOk result (HasForms Item.kind (trailer_by t.now) payload.now) }
    ensures fit { OnOk result
        (AllByRecursion Item.fits (items_by Item.kind (trailer_by t.now) payload.now)) }
    ensures order { OnOk result (HasOrder Item.kind (trailer_by t.now) payload.now) }
    ensures pointers { OnOk result (HasPointers Item.kind (trailer_by t.now) payload.now) }
    ensures refused { IfErr result
        (IsItemsRefusal Item.kind Item.fits Item.unfit (trailer_by t.now) payload.now) }
{
    let mut tally = NoTally;
    check_items_with::<Item, Parsed, NoTally>(payload, t, &mut tally)
}
