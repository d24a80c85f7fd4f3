//! The house rule that a script names.
use policy::Pair;
use std::alloc::Global;
use std::io;
use text::numbers::number;
use text::part::cut;

/// The terms of a house rule: the pairs of a separation, or the group of a quota and how many of it.
#[derive(Drop)]
pub enum Terms {
    Separation(Vec<Pair>),
    Quota(u32, u32),
}

/// The number that the bytes write, if it is below 2^32.
fn narrow(field: &[u8]) -> Option<u32> {
    u32::try_from(number(field)?).ok()
}

/// The numbers of a list with commas between.
fn numbers(heap: Global, list: &[u8]) -> io::Result<Option<Vec<u32>>> {
    let mut numbers = Vec::new(heap);
    for field in list.split(|b| *b == b',') {
        let Some(n) = narrow(field) else {
            return Ok(None);
        };
        numbers.push(n)?;
    }
    Ok(Some(numbers))
}

/// Each two numbers as a pair; an odd count makes none.
fn pairs(heap: Global, numbers: &[u32]) -> io::Result<Option<Vec<Pair>>> {
    let mut pairs = Vec::new(heap);
    for chunk in numbers.chunks(2) {
        let [first, second] = chunk else {
            return Ok(None);
        };
        pairs.push(Pair {
            first: *first,
            second: *second,
        })?;
    }
    Ok(Some(pairs))
}

fn separation(heap: Global, numbers: &[u32]) -> io::Result<Option<Terms>> {
    Ok(pairs(heap, numbers)?.map(Terms::Separation))
}

fn quota(numbers: &[u32]) -> Option<Terms> {
    let [group, most] = numbers else {
        return None;
    };
    Some(Terms::Quota(*group, *most))
}

impl Terms {
    /// The terms that a line, without its byte 10, says.
    pub(crate) fn of(heap: Global, line: &[u8]) -> io::Result<Option<Terms>> {
        if let b"rule=separation" = line {
            return separation(heap, &[]);
        }
        let Some((name, list)) = cut(line, b',') else {
            return Ok(None);
        };
        let Some(numbers) = numbers(heap, list)? else {
            return Ok(None);
        };
        match name {
            b"rule=separation" => separation(heap, numbers.as_slice()),
            b"rule=quota" => Ok(quota(numbers.as_slice())),
            _ => Ok(None),
        }
    }
}
