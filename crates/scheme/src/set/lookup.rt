// The parameter set of a number.
ghost use Rattle.scheme.specs.Sets.{SetOrRefusal};

use crate::refusal::Refusal;
use crate::set::ParameterSet;

const SET_1: ParameterSet = ParameterSet {
    n: 5,
    width: 6,
    ternary: 1,
    word: 3,
    card: 8,
    pair: 2,
    coins: 4,
};

const SET_2: ParameterSet = ParameterSet {
    n: 7,
    width: 7,
    ternary: 2,
    word: 6,
    card: 16,
    pair: 4,
    coins: 6,
};

const SET_3: ParameterSet = ParameterSet {
    n: 701,
    width: 13,
    ternary: 140,
    word: 1138,
    card: 2556,
    pair: 280,
    coins: 700,
};

// The set of a number: 1, 2 or 3. Calls take the number itself, since a number of no set is one of their refusals, in its place among them.
impl TryFrom<u8> for ParameterSet {
    type Error = Refusal;

    ghost try_from_gives = { SetOrRefusal };

    fn try_from(number: u8) -> Result<Self, Refusal> {
        match number {
            1 => Ok(SET_1),
            2 => Ok(SET_2),
            3 => Ok(SET_3),
            _ => Err(Refusal::NoSuchSet),
        }
    }
}
