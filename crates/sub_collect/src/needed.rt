// The numbers that a run has to hold.
ghost use Rattle.std.specs.Prelude.{◌≡◌, ◌+◌, ◌-◌, ◌++◌, length, option_map, IfOk, OnOk};
ghost use Rattle.section_codec.specs.Contents.{numbers_from};
ghost use Rattle.sub_collect.specs.Collectors.{last_in};
ghost use Rattle.sub_collect.specs.Slots.{needed_by};
ghost use Rattle.sub_collect.specs.PartSlots.{known_by};

use std::alloc::{AllocError, Global};

// The needed numbers of a table with this last_section_number, with segments or without, by the last number of each
// segment; None where that of a needed segment is not known.
pub fn needed_numbers(
    alloc: Global,
    segmented: bool,
    lasts: &[Option<u8>; 32],
    last: u8,
) -> Result<Option<Vec<u8>>, AllocError>
    ensures { IfOk result (λ needed. option_map (λ v. v.items) needed ≡ needed_by segmented (last_in lasts.now) last) }
{
    let mut numbers = Vec::new(alloc);
    if !segmented {
        put_numbers(&mut numbers, 0, last)?;
        return Ok(Some(numbers));
    }
    for segment in 0..last / 8 + 1 {
        let Some(segment_last) = lasts[usize::from(segment)] else {
            return Ok(None);
        };
        put_numbers(&mut numbers, 8 * segment, segment_last)?;
    }
    Ok(Some(numbers))
}

// The needed numbers that are known of a table with this last_section_number, with segments or without: of segments those of which the last
// number is known.
pub fn known_numbers(
    alloc: Global,
    segmented: bool,
    lasts: &[Option<u8>; 32],
    last: u8,
) -> Result<Vec<u8>, AllocError>
    ensures { IfOk result (λ known. known.items ≡ known_by segmented (last_in lasts.now) last) }
{
    let mut numbers = Vec::new(alloc);
    if !segmented {
        put_numbers(&mut numbers, 0, last)?;
        return Ok(numbers);
    }
    for segment in 0..last / 8 + 1 {
        if let Some(segment_last) = lasts[usize::from(segment)] {
            put_numbers(&mut numbers, 8 * segment, segment_last)?;
        }
    }
    Ok(numbers)
}

// Appends the numbers from a first one to a last one.
fn put_numbers(numbers: &mut Vec<u8>, first: u8, last: u8) -> Result<(), AllocError>
    ensures { OnOk result (numbers.new.items ≡ numbers.old.items ++ numbers_from first (1 + last - first)) }
{
    for n in u16::from(first)..u16::from(last) + 1 {
        numbers.push(n as u8)?;
    }
    Ok(())
}
