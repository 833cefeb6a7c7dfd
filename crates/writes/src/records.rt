// Whether a record is what an entry says.
use crate::digests;
use crate::entries::Entry;
use record::Slot;

// Whether a record's bytes have the digests of an entry, and its data behind them.
fn is_filled(record: &[u8], slot: Slot, e: Entry) -> bool {
    let place = slot.digest_place.wrapping_sub(slot.start);
    let Some(bytes) = record.get(place..) else {
        return false;
    };
    let Some(met) = digests::meet(e.digests, e.form, bytes) else {
        return false;
    };
    let end = record.len().wrapping_sub(met.rest.len());
    let data = slot.data.at.wrapping_sub(slot.start);
    met.count == slot.digests
        && data == end.wrapping_add(4)
        && slot.data.len == e.data.len()
        && record.get(data..).is_some_and(|d| d.starts_with(e.data))
}

// Whether a record is what an entry says, field by field. Its bytes may have others behind them.
pub fn is_entry(record: &[u8], slot: Slot, e: Entry) -> bool {
    slot.register == e.register && slot.event == e.event && is_filled(record, slot, e)
}
