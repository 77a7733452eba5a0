// Refusals in the words of the people who meet them.
use scheme::Refusal;

// What a refusal means and what to do.
pub(crate) fn meaning(refusal: Refusal) -> &'static str {
    match refusal {
        Refusal::NoSuchSet => "there is no such parameter set; name set 1, 2 or 3",
        Refusal::InputLength =>
            "the input has the wrong length for this set; for coins draw 4, 6 or 700 new bytes for set 1, 2 or 3",
        Refusal::OutputLength =>
            "the output has the wrong length for this set; a pair record has 2, 4 or 280 bytes at set 1, 2 or 3, and this program should have known: report it",
        Refusal::TernaryByte =>
            "a byte above F2 stands where five ternary digits should; the card or record is damaged, take another copy",
        Refusal::NegativeCorrelation =>
            "the card is damaged or not a key: its f has negative correlation; take another copy, and if that is refused too, make a new card",
        Refusal::FpNotInverse =>
            "the card is damaged or not a key: its fp is not the inverse of its f; take another copy, and if that is refused too, make a new card",
        Refusal::NoKeyEquation =>
            "the card is damaged or not a key: its h does not belong to its f; take another copy, and if that is refused too, make a new card",
        Refusal::HqNotInverse =>
            "the card is damaged or not a key: its hq is not the inverse of its h; take another copy, and if that is refused too, make a new card",
        Refusal::NotInvertible =>
            "no card comes of these coins, which happens by chance; draw new coins and make again",
        Refusal::NoPair =>
            "no pair: the record is not for this board; do not screw the cover down, carry the record to the next door and try there; if no board of the row opens it, report it",
    }
}
