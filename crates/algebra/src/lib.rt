// Theorems of the mathematics below the libraries. Each function's contract is one, and nothing runs.
#![tactic(auto)]

ghost use Rattle.algebra.specs.Example.{Example};
ghost use Rattle.algebra.specs.RingTheorems.{EveryRing, CyclicPolynomials, ReducedPolynomials, Totals, Phi1Ones, Reduction, Determined, Division, PowerSeries, Folding};
ghost use Rattle.algebra.specs.SchemeTheorems.{SetsSuffice, LiftsAreUnique, CandidatesDecide, KeysAreTested, MadeEquationsHold, MakingMakesKeys, FlipsNegate, CombinationsAreSmall, CiphertextsAreBalanced, OpeningComputes, OpeningGivesBack, OpenedPairsEncrypt, RefusedHaveNoPair, PairsAreUnique};
ghost use Rattle.algebra.specs.Theorems.{IntegersAreARing, NaturalsModuloAreARing, ResiduesAreARing, ResiduesStand, DigitsStand, RowsAreTheProduct, WordProducts, ResidueProducts, ResidueInverses, ReductionModulo, BalancedByLast, CauchySchwarz, ProductsAreSmall, InversesLift, InversesModuloWords};

// Every commutative ring: T is the type of its elements.

pub fn cyclic_polynomials_are_a_ring<T>() -> u8
    ensures { EveryRing T CyclicPolynomials }
{
    0
}

pub fn reduced_polynomials_are_a_ring<T>() -> u8
    ensures { EveryRing T ReducedPolynomials }
{
    0
}

pub fn totals_carry_over<T>() -> u8
    ensures { EveryRing T Totals }
{
    0
}

pub fn phi1_times_ones_is_zero<T>() -> u8
    ensures { EveryRing T Phi1Ones }
{
    0
}

pub fn reduction_is_canonical<T>() -> u8
    ensures { EveryRing T Reduction }
{
    0
}

pub fn totals_and_classes_determine<T>() -> u8
    ensures { EveryRing T Determined }
{
    0
}

pub fn division_by_phi1<T>() -> u8
    ensures { EveryRing T Division }
{
    0
}

pub fn power_series_are_a_ring<T>() -> u8
    ensures { EveryRing T PowerSeries }
{
    0
}

pub fn products_fold<T>() -> u8
    ensures { EveryRing T Folding }
{
    0
}

// Rings, and what stands for integers.

pub fn integers_are_a_ring() -> u8
    ensures { IntegersAreARing }
{
    0
}

pub fn naturals_modulo_are_a_ring() -> u8
    ensures { NaturalsModuloAreARing }
{
    0
}

pub fn residues_are_a_ring() -> u8
    ensures { ResiduesAreARing }
{
    0
}

pub fn residues_stand() -> u8
    ensures { ResiduesStand }
{
    0
}

pub fn digits_stand() -> u8
    ensures { DigitsStand }
{
    0
}

// Products, classes and sums.

pub fn rows_are_the_product() -> u8
    ensures { RowsAreTheProduct }
{
    0
}

pub fn word_products() -> u8
    ensures { WordProducts }
{
    0
}

pub fn residue_products() -> u8
    ensures { ResidueProducts }
{
    0
}

pub fn residue_inverses() -> u8
    ensures { ResidueInverses }
{
    0
}

pub fn reduction_modulo_k() -> u8
    ensures { ReductionModulo }
{
    0
}

pub fn balanced_by_last() -> u8
    ensures { BalancedByLast }
{
    0
}

// Sizes.

pub fn cauchy_schwarz() -> u8
    ensures { CauchySchwarz }
{
    0
}

pub fn products_are_small() -> u8
    ensures { ProductsAreSmall }
{
    0
}

// Inverses modulo powers of two.

pub fn inverses_lift() -> u8
    ensures { InversesLift }
{
    0
}

pub fn inverses_modulo_words() -> u8
    ensures { InversesModuloWords }
{
    0
}

// Sets and lifts.

pub fn sets_suffice() -> u8
    ensures { SetsSuffice }
{
    0
}

pub fn lifts_are_unique() -> u8
    ensures { LiftsAreUnique }
{
    0
}

// Keys.

pub fn candidates_decide() -> u8
    ensures { CandidatesDecide }
{
    0
}

pub fn keys_are_tested() -> u8
    ensures { KeysAreTested }
{
    0
}

pub fn made_equations_hold() -> u8
    ensures { MadeEquationsHold }
{
    0
}

pub fn making_makes_keys() -> u8
    ensures { MakingMakesKeys }
{
    0
}

pub fn flips_negate() -> u8
    ensures { FlipsNegate }
{
    0
}

// Opening.

pub fn combinations_are_small() -> u8
    ensures { CombinationsAreSmall }
{
    0
}

pub fn ciphertexts_are_balanced() -> u8
    ensures { CiphertextsAreBalanced }
{
    0
}

pub fn opening_computes() -> u8
    ensures { OpeningComputes }
{
    0
}

pub fn opening_gives_back() -> u8
    ensures { OpeningGivesBack }
{
    0
}

pub fn opened_pairs_encrypt() -> u8
    ensures { OpenedPairsEncrypt }
{
    0
}

pub fn refused_have_no_pair() -> u8
    ensures { RefusedHaveNoPair }
{
    0
}

pub fn pairs_are_unique() -> u8
    ensures { PairsAreUnique }
{
    0
}

pub fn an_example_opens() -> u8
    ensures { Example }
{
    0
}
