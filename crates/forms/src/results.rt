// The end of a listing: the fills, which are written from a place of lent words that is not the first, and their sum.
ghost use Rattle.std.specs.Prelude.{◌≤◌, length};

use crate::lines::{print_fill, print_total};
use crate::wrong::Wrong;
use auction::Auction;
use fills::write_fills;

// A line for each fill; the sum of their quantities.
fn print_fills(rt: &impl Print, fills: &[[u32; 3]]) -> u64
    requires { length fills.now ≤ 130 }
{
    let mut sum = 0;
    for [party, price, quantity] in fills {
        print_fill(rt, *party, *price, *quantity);
        sum += u64::from(*quantity);
    }
    sum
}

pub(crate) fn print_results(rt: &impl Print, auction: Auction) -> Result<(), Wrong> {
    let mut words = [0u32; 400];
    let start = 3;
    let n = write_fills(auction, &mut words, start).map_err(|_| Wrong::FillsRefused)?;
    let (fills, _) = words[start..start + 390].as_chunks::<3>();
    let fills = fills.get(..n as usize).ok_or(Wrong::FillCount)?;
    print_total(rt, print_fills(rt, fills));
    Ok(())
}
