// Theory only: polynomials over a commutative ring, division with remainder, and Euclid's method. No code that runs.
#![tactic(auto)]
