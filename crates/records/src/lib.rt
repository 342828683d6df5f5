// The scheduler's list of records, read and changed by thin functions.
#![tactic(auto)]

ghost use Rattle.std.specs.Prelude.{◌≡◌};
ghost use Rattle.records.specs.Records.{record_at, with_seen, with_waiting, applied};
ghost use Rattle.records.specs.Reading.{summary_of};

use limits::MAX_LIST;

// What the scheduler keeps of one rule: its number, how many states it has seen, and how many wait. In C the same 24 bytes.
#[repr(C)]
#[derive(Clone, Copy, Default)]
pub struct Record {
    pub rule: usize,
    pub seen: u64,
    pub waiting: usize,
}

// What one pass over the list finds: how many records there are, the highest rule number, the largest number of waiting states, and the
// first eight records.
#[derive(Clone, Copy)]
pub struct Summary {
    pub count: usize,
    pub highest: usize,
    pub longest: usize,
    pub records: [Record; MAX_LIST],
}

// Both counts of one record. Where the place is past the end, no record changes.
#[derive(Clone, Copy)]
pub struct Change {
    pub place: usize,
    pub seen: u64,
    pub waiting: usize,
}

// The record at a place; all zero past the end.
pub fn record_at(list: &[Record], i: usize) -> Record
    ensures { result ≡ record_at list.now i }
{
    list.get(i).copied().unwrap_or_default()
}

// Changes one count of states seen; past the end nothing.
pub fn set_seen(list: &mut [Record], i: usize, v: u64)
    ensures { list.new ≡ with_seen list.old i v }
{
    if i < list.len() {
        list[i].seen = v;
    }
}

// Changes one number of waiting states; past the end nothing.
pub fn set_waiting(list: &mut [Record], i: usize, v: usize)
    ensures { list.new ≡ with_waiting list.old i v }
{
    if i < list.len() {
        list[i].waiting = v;
    }
}

// One pass over the list: the first eight records are copied, and looked at in their copies.
pub fn scan(list: &[Record]) -> Summary
    ensures { result ≡ summary_of list.now }
{
    let kept = list.len().min(MAX_LIST);
    let (first, rest) = list.split_at(kept);
    let mut records = [Record::default(); MAX_LIST];
    records[..kept].copy_from_slice(first);
    let all = records[..kept].iter().chain(rest.iter());
    let (highest, longest) = all.fold((0, 0), |(rule, waiting), r| {
        (rule.max(r.rule), waiting.max(r.waiting))
    });
    Summary {
        count: list.len(),
        highest,
        longest,
        records,
    }
}

// The list is lent to the first call, and given to the second.
pub fn apply(list: &mut [Record], c: Change)
    ensures { list.new ≡ applied list.old c }
{
    set_seen(list, c.place, c.seen);
    set_waiting(list, c.place, c.waiting);
}
