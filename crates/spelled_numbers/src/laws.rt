//! Laws that a call of these functions tells its caller. They do nothing.
ghost use Rattle.spelled_numbers.specs.Laws.{EveryLaw, WithinLaw, FreeLaw, ElsewhereLaw, CoverLaw, TotalLaw, WeightSumLaw, SignedSumLaw, AppendLaw, AllWeightsLaw, LevelsLaw};

/// The laws of spelling: each vector of numbers within the totals is spelled, all values spell such
/// numbers, free levels keep their values, and a number depends on the levels of its part alone.
/// A layout covers where the weights of each part do.
pub fn spelling_laws()
    ensures every { EveryLaw }
    ensures within { WithinLaw }
    ensures free { FreeLaw }
    ensures elsewhere { ElsewhereLaw }
    ensures cover { CoverLaw }
    ensures total { TotalLaw }
{}

/// What sums of the levels of parts come to.
pub fn sum_laws()
    ensures weight_sum { WeightSumLaw }
    ensures signed_sum { SignedSumLaw }
    ensures append { AppendLaw }
    ensures all_weights { AllWeightsLaw }
    ensures levels { LevelsLaw }
{}
