//! The laws, as contracts of functions that do nothing.
ghost use Rattle.typing_laws.specs.Laws.{BoundsAreShared, BrokenModesAreRefused, DeclaredTwiceIsRefused, EmptyRangesAreRefused, InForceIsFound, MeaningIsBuilt, RulesAreKept, StaticBoundsAreFound, TypedIsAccepted, UnknownNamesAreRefused, WellTypedIsAccepted};

/// In a text in order a statement is refused for a name that is declared twice exactly where one of its names has a declaration
/// before it, and then with the first such name. This law costs nothing.
pub fn declared_twice_is_refused()
    ensures { DeclaredTwiceIsRefused }
{}

/// In a text in order a name is found exactly where a declaration of it is in force; and where no name is declared twice, exactly
/// that declaration is found. This law costs nothing.
pub fn in_force_is_found()
    ensures { InForceIsFound }
{}

/// In a text in order whose names are declared once, an expression has a kind by the rules exactly where that kind is found for it.
/// This law costs nothing.
pub fn typed_is_accepted()
    ensures { TypedIsAccepted }
{}

/// In such a text a statement keeps the rules on types exactly where it is accepted for its types. This law costs nothing.
pub fn well_typed_is_accepted()
    ensures { WellTypedIsAccepted }
{}

/// In a text in order a statement is refused for an unknown name exactly where one of the names that it uses has no declaration in
/// force, and then with the first such name as the statement is written. This law costs nothing.
pub fn unknown_names_are_refused()
    ensures { UnknownNamesAreRefused }
{}

/// In a text in order whose names are declared once, a statement is refused for its modes exactly where it breaks one of the rules
/// on modes. This law costs nothing.
pub fn broken_modes_are_refused()
    ensures { BrokenModesAreRefused }
{}

/// In such a text a statement is refused for an empty range exactly where it has a range whose least value is above its greatest.
/// This law costs nothing.
pub fn empty_ranges_are_refused()
    ensures { EmptyRangesAreRefused }
{}

/// In a text in order whose names are declared once and whose statements keep the rules on types, the static bounds of a typed
/// expression are found exactly where no part of it has bounds outside 2^126 on either side of 0; and those of an expression that
/// is no condition are exactly the ones that the rules give. This law costs nothing.
pub fn static_bounds_are_found()
    ensures { StaticBoundsAreFound }
{}

/// A text in order is refused by no rule of names, types, modes, ranges, bounds and limits exactly where it keeps all of them, as
/// they are defined here. This law costs nothing.
pub fn rules_are_kept()
    ensures { RulesAreKept }
{}

/// In a text in order, where the modes allow the uses of variables in the expression of a statement, the static bounds of the
/// expression as it is written (`Narrow` of `il_types`) are there exactly where each part of what is built of it has small bounds
/// over the places of its procedure (`Bounds` of `il_core`), and they are the bounds of that. This law costs nothing.
pub fn bounds_are_shared()
    ensures { BoundsAreShared }
{}

/// In a text in order that keeps the rules, what is built of an expression is exactly what the expression stands for: constants and
/// values of enumerations their numbers, variables the place that has their name, and behind OLD the OLD copy of that name. This
/// law costs nothing.
pub fn meaning_is_built()
    ensures { MeaningIsBuilt }
{}
