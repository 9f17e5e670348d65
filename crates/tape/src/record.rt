/// One record of a tape: a call of the sale and the row that it is handed.
/// A row is the first cells, one for each product; the others are zero.
// Rows are arrays, since there is no heap; how many of their cells count is the header's, for all records of a tape.
#[derive(Clone, Copy, PartialEq, Eq, Debug)]
pub enum Record {
    /// `O`: a round opens at these prices.
    Open([u32; 16]),
    /// `T`: the package of these quantities is offered.
    Offer([u8; 16]),
    /// `C`: the trial is confirmed.
    Confirm,
    /// `W`: the trial is withdrawn.
    Withdraw,
    /// `S`: the round closes.
    Close,
    /// `V`: the sheet is read.
    Sheet,
}
