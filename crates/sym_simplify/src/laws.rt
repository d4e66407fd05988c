//! Laws of normal terms, as contracts of functions that do nothing.
ghost use Rattle.sym_simplify.specs.Laws.{ConstantsAreSums, CoefficientsAreSums, NormalTermsAreNormal, NormalTermsAreUnique, IsExactOrder, NormalTermsKeepValues, WeightsBoundNormalTerms, DifferencesAreNormalTerms};
ghost use Rattle.sym_simplify.specs.WorkedTexts.{WorkedTexts};

/// The constant of a term's normal term is the sum of the numbers among the term's summands.
pub fn constants_are_sums()
    ensures { ConstantsAreSums }
{}

/// The coefficient of an atom in a term's normal term is the sum of its coefficients among the term's summands.
pub fn coefficients_are_sums()
    ensures { CoefficientsAreSums }
{}

/// The normal term of a term is normal: its atoms ascend strictly, no coefficient is 0, and so in the sides of its
/// atoms.
pub fn normal_terms_are_normal()
    ensures { NormalTermsAreNormal }
{}

/// A normal term is determined by its constant and its coefficients.
pub fn normal_terms_are_unique()
    ensures { NormalTermsAreUnique }
{}

/// Normal terms and atoms are totally ordered, and only equal atoms compare as equal.
pub fn orders_are_exact()
    ensures { IsExactOrder }
{}

/// The normal term of a term has the term's value in every state.
pub fn normal_terms_keep_values()
    ensures { NormalTermsKeepValues }
{}

/// The coefficients and the constant of a normal term are together at most the term's weight, in absolute value.
pub fn weights_bound_normal_terms()
    ensures { WeightsBoundNormalTerms }
{}

/// Some normal terms and literals have the texts that are worked out by hand for them.
pub fn worked_texts()
    ensures { WorkedTexts }
{}

/// What a literal's form compares to 0 is the normal term of its left side plus -1 times its right side.
pub fn differences_are_normal_terms()
    ensures { DifferencesAreNormalTerms }
{}
