// The board: 64 places for responses, and the word that tells which of them are live.

#![tactic(auto)]

ghost use Rattle.std.specs.Prelude.{◌≡◌};
ghost use Rattle.board.specs.rules.Board.{no_response, response_at, empty_board, is_live, live_count, first_free, place_at, seated_at, cleared, is_named, found};
ghost use Rattle.words.specs.rules.Bits.{clear_in};

use words::bits;
use words::bits::Places;

// A response that stands on the board: a GTX response, or a limit order. The participant is the firm behind it.
#[derive(Clone, Copy)]
pub struct Response {
    pub sequence: u32,
    pub size: u32,
    pub price: u32,
    pub participant: u32,
    pub customer: bool,
    pub gtx: bool,
}

// Bit i of live says that place i is live.
#[derive(Clone, Copy)]
pub struct Board {
    pub places: [Response; 64],
    pub live: u64,
}

// A response that was looked for and found: its place, and what stands there.
#[derive(Clone, Copy)]
pub struct Found {
    pub place: usize,
    pub response: Response,
}

// What stands where no response was ever placed.
fn no_response() -> Response
    ensures { result ≡ no_response }
{
    Response {
        sequence: 0,
        size: 0,
        price: 0,
        participant: 0,
        customer: false,
        gtx: false,
    }
}

// The board with no live place.
pub fn empty() -> Board
    ensures { result ≡ empty_board }
{
    let places = [no_response(); 64];
    Board { places, live: 0 }
}

// Whether place i is live.
pub fn is_live(b: Board, i: usize) -> bool
    ensures { result ≡ is_live b i }
{
    bits::test(b.live, i)
}

// How many places are live.
pub fn live_count(b: Board) -> u32
    ensures { result ≡ live_count b }
{
    bits::ones(b.live)
}

// The lowest place that a word of live places leaves free.
pub fn free_in(live: u64) -> Option<usize>
    ensures { result ≡ place_at (clear_in 64 live) }
{
    let i = bits::first_clear(live) as usize;
    if i == 64 {
        return None;
    }
    Some(i)
}

// The lowest free place.
pub fn first_free(b: Board) -> Option<usize>
    ensures { result ≡ place_at (first_free b) }
{
    free_in(b.live)
}

// A response at a place, live. Where there is no such place the board stays.
pub fn seated(b: Board, at: usize, r: Response) -> Board
    ensures { result ≡ seated_at b at r }
{
    if 64 <= at {
        return b;
    }
    let mut n = b;
    n.places[at] = r;
    n.live = bits::with_bit(n.live, at);
    n
}

// Place i is free.
pub fn clear(b: Board, i: usize) -> Board
    ensures { result ≡ cleared b i }
{
    let mut n = b;
    n.live = bits::without_bit(n.live, i);
    n
}

// Whether a response has this sequence: any, or a GTX response alone.
pub fn is_named(r: Response, sequence: u32, any: bool) -> bool
    ensures { result ≡ is_named any sequence r }
{
    (any | r.gtx) & (r.sequence == sequence)
}

// The live response with this sequence: any, or a GTX response alone.
pub fn find(b: Board, sequence: u32, any: bool) -> Option<Found>
    ensures { result ≡ found any b sequence }
{
    for place in Places::of(b.live) {
        let response = b.places[place];
        if is_named(response, sequence, any) {
            return Some(Found { place, response });
        }
    }
    None
}

// What stands at place i; past the last place, what stands where no response was ever placed.
pub fn response_at(b: Board, i: usize) -> Response
    ensures { result ≡ response_at b.places i }
{
    if i < 64 {
        return b.places[i];
    }
    no_response()
}
