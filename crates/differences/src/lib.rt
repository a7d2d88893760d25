// Two shown screens laid side by side (document 02, P4): a record for each place that differs, in the caller's list, and the first of them.
// The screens are looked through twice, once to count and once to write, so that a list that is too short is never touched; nothing is kept
// beside the caller's list.
#![tactic(auto)]

mod search;

ghost use Rattle.std.specs.Prelude.{◌≡◌, MatchResult, Ok, replicate};
ghost use Rattle.differences.specs.Answers.{ComparePromised, FirstPromised, answer_of, first_of, nowhere, number_of, values_of};

use search::Screens;

// "row, column, first code, second code"; rows and columns from 1.
#[repr(C)]
#[derive(Clone, Copy, Default)]
pub struct Difference {
    pub row: u8,
    pub column: u8,
    pub first: u8,
    pub second: u8,
}

// The first call's answer: 0 and the number of records written, or 1 or 18 and none. (Numbers, for C reads it.)
#[repr(C)]
#[derive(Clone, Copy)]
pub struct Compared {
    pub number: u8,
    pub count: usize,
}

// Why a call is refused: a shown screen is not of its size (1), or "the differences exceed the list" (18); `number_of` has the numbers.
#[derive(Clone, Copy, Debug, PartialEq, Eq)]
pub enum Refusal {
    StoreSize,
    ListTooShort,
}

// The paper's number of each.
impl From<Refusal> for u8 {
    ghost from_gives = { λ refusal number. number ≡ number_of refusal };

    fn from(refusal: Refusal) -> u8 {
        match refusal {
            Refusal::StoreSize => 1,
            Refusal::ListTooShort => 18,
        }
    }
}

// The second call's answer in numbers: 0 or the refusal's, 1 where there is a difference, and its record (zeros where there is none).
// (Numbers, for C reads it.)
#[repr(C)]
#[derive(Clone, Copy)]
pub struct FirstValues {
    pub number: u8,
    pub found: u8,
    pub difference: Difference,
}

// For callers that take no enum.
impl From<Result<Option<Difference>, Refusal>> for FirstValues {
    ghost from_gives = { λ answer values. values ≡ values_of answer };

    fn from(answer: Result<Option<Difference>, Refusal>) -> FirstValues {
        match answer {
            Ok(Some(difference)) => FirstValues {
                number: 0,
                found: 1,
                difference,
            },
            Ok(None) => FirstValues {
                number: 0,
                found: 0,
                difference: Difference::default(),
            },
            Err(refusal) => FirstValues {
                number: refusal.into(),
                found: 0,
                difference: Difference::default(),
            },
        }
    }
}

// One record for each place that differs, by rows, from the list's start; the list beyond stays. A thin function over the search.
pub fn compare(first: &[u8], second: &[u8], list: &mut [Difference]) -> Compared
    ensures { ComparePromised first.now second.now list.old result list.new }
{
    match write_all(first, second, list) {
        Ok(count) => Compared { number: 0, count },
        Err(refusal) => Compared {
            number: refusal.into(),
            count: 0,
        },
    }
}

// The first call's answer with its list, where the list went in by value.
#[derive(Clone, Copy)]
pub struct Listing {
    pub answer: Compared,
    pub list: [Difference; 640],
}

// The same with the list by value. It stays, with `blank` and `values`: docs/DECISIONS.md (P4.3) and docs/notes/P4.md name them.
pub fn compare_in(first: &[u8], second: &[u8], list: [Difference; 640]) -> Listing
    ensures { ComparePromised first.now second.now list result.answer result.list }
{
    let mut all = list;
    let answer = compare(first, second, &mut all);
    Listing { answer, list: all }
}

// A list of 640 records of zeros.
pub fn blank() -> [Difference; 640]
    ensures { result ≡ replicate 640 nowhere }
{
    [Difference::default(); 640]
}

// The records, written one by one; how many there are.
fn write_all(first: &[u8], second: &[u8], list: &mut [Difference]) -> Result<usize, Refusal>
    ensures { ComparePromised first.now second.now list.old (answer_of result) list.new }
{
    let screens = Screens::new(first, second)?;
    let n = screens.count();
    if list.len() < n {
        return Err(Refusal::ListTooShort);
    }
    let mut place = 0;
    for k in 0..n {
        place = screens.seek(place);
        list[k] = screens.record_at(place);
        place += 1;
    }
    Ok(n)
}

// Only the first difference (nested loops, left by a label: document 01's form): "search row by row from the left and stop at the first". Promised
// by the answer, and by the paper's number and values for its cases.
pub fn first_difference(first: &[u8], second: &[u8]) -> Result<Option<Difference>, Refusal>
    ensures { (result ≡ first_of first.now second.now) × FirstPromised first.now second.now (values_of result) }
{
    let screens = Screens::new(first, second)?;
    let mut found = None;
    'rows: for row in 0..8usize {
        for column in 0..80usize {
            let place = row * 80 + column;
            if screens.differ(place) {
                found = Some(screens.record_at(place));
                break 'rows;
            }
        }
    }
    Ok(found)
}

// Its values; those too of a refusal that is told by any number.
pub fn values<R: Into<u8>>(first: Result<Option<Difference>, R>) -> FirstValues
    ensures { MatchResult first (λ o. result ≡ values_of (Ok o)) (λ r. (R.converts r result.number) × ((result.found ≡ 0) × (result.difference ≡ nowhere))) }
{
    match first {
        Ok(found) => Ok(found).into(),
        Err(refusal) => {
            let number = refusal.into();
            FirstValues {
                number,
                found: 0,
                difference: Difference::default(),
            }
        }
    }
}
