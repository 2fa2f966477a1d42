// The sides of orders and events and the modes of orders, with the byte of a record that names each.

// Which side an order or an event is on.
#[derive(Clone, Copy, Debug, PartialEq, Eq)]
pub enum Side {
    Buy = 1,
    Sell = 2,
}

// How an order is guaranteed its price: by a stop, by auto-match, or by auto-match up to a limit.
#[derive(Clone, Copy, Debug, PartialEq, Eq)]
pub enum Mode {
    Stop = 1,
    AutoMatch = 2,
    AutoMatchLimit = 3,
}
