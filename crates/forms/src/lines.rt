// The lines of a listing, onto standard output. A write that fails is left at that: what is printed here is compared.
use auction::{Ending, Head, price_range};
use base::Refusal;
use events::Answer;

// A word and a name, on a line.
pub(crate) fn print_name(rt: &impl Print, word: &str, name: &[u8]) {
    let _ = rt.print(word);
    let _ = rt.write_all(name);
    let _ = println!(rt);
}

pub(crate) fn print_refused(rt: &impl Print, refusal: Refusal) {
    let _ = println!(rt; "REFUSED {refusal}");
}

pub(crate) fn print_auction(rt: &impl Print, head: Head) {
    let side = if head.terms.sell { "sell" } else { "buy" };
    let range = price_range(head);
    let _ = println!(rt;
        "AUCTION {side} size {} range {} to {}",
        head.terms.size, range.low, range.high
    );
}

pub(crate) fn print_event(rt: &impl Print, sequence: u32, answer: Answer) {
    let _ = match answer {
        Answer::Taken => println!(rt; "EVENT {sequence} taken"),
        Answer::Ended => println!(rt; "EVENT {sequence} ended"),
        Answer::Late => println!(rt; "EVENT {sequence} late"),
        Answer::Refused(refusal) => println!(rt; "EVENT {sequence} refused {refusal}"),
    };
}

pub(crate) fn print_end(rt: &impl Print, head: Head) {
    let ending = match head.ending {
        Ending::Time => "time",
        Ending::Same => "same",
        Ending::Opposite => "opposite",
        Ending::Improve => "improve",
        Ending::Open => "open",
    };
    let range = price_range(head);
    let _ = println!(rt; "END {ending} range {} to {}", range.low, range.high);
}

pub(crate) fn print_fill(rt: &impl Print, party: u32, price: u32, quantity: u32) {
    let _ = match party {
        0 => println!(rt; "FILL contra {price} {quantity}"),
        _ => println!(rt; "FILL {party} {price} {quantity}"),
    };
}

pub(crate) fn print_total(rt: &impl Print, total: u64) {
    let _ = println!(rt; "TOTAL {total}");
}
