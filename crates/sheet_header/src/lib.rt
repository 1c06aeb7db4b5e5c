// The header's sections: inputs and wires with their types, outputs with their wires. Every byte of the header is a field of its
// own, read and tested before the next. Rests on `sheet` for the refusals.
#![tactic(auto)]

ghost use Rattle.std.specs.Prelude.{◌≡◌, ◌+◌, ◌^◌, ◌<◌, cond};
ghost use Rattle.sheet.specs.Headers.{field_of, bytes_of, section_of};

use sheet::{Got, Refusal, Refused};

// One byte of the header, from `low` on and below `limit`.
fn field(sheet: &[u8], at: usize, low: usize, limit: usize, wrong: Refusal) -> Result<Got, Refused>
    ensures { result ≡ field_of sheet.now at low limit wrong }
{
    if sheet.len() <= at {
        return Err(Refusal::Cut.at(sheet.len()));
    }
    let byte = sheet[at] as usize;
    if byte < low {
        return Err(wrong.at(at));
    }
    if limit <= byte {
        return Err(wrong.at(at));
    }
    Ok(Got {
        next: at + 1,
        count: byte,
    })
}

// The least byte that may follow this one.
fn least(rising: bool, byte: usize) -> usize
    requires { byte + 1 < 2 ^ 64 }
    ensures { result ≡ cond rising (byte + 1) 0 }
{
    if rising { byte + 1 } else { 0 }
}

// `count` bytes from `at` on, each below `limit`; where they rise, each is above the one before.
fn bytes(
    sheet: &[u8],
    at: usize,
    limit: usize,
    rising: bool,
    wrong: Refusal,
    count: usize,
) -> Result<Got, Refused>
    ensures { result ≡ bytes_of sheet.now count at 0 limit rising wrong count }
{
    let mut place = at;
    let mut low = 0;
    for _byte in 0..count {
        let one = field(sheet, place, low, limit, wrong)?;
        place = one.next;
        low = least(rising, one.count);
    }
    Ok(Got { next: place, count })
}

// A count from `fewest` on and below `excess`, then so many bytes.
pub fn section(
    sheet: &[u8],
    at: usize,
    fewest: usize,
    excess: usize,
    limit: usize,
    rising: bool,
    wrong: Refusal,
) -> Result<Got, Refused>
    ensures { result ≡ section_of sheet.now at fewest excess limit rising wrong }
{
    let counted = field(sheet, at, fewest, excess, Refusal::CountRange)?;
    bytes(sheet, counted.next, limit, rising, wrong, counted.count)
}
