//! What the premises of `IsPrintableStory` are for: without one there are two stories of one text.

ghost use Rattle.std.specs.Prelude.{◌*◌, ◌<◌, ◌∷◌, ◌^◌, [], List, codes, length};
ghost use Rattle.salt_ast.specs.declared.trees.TableDef.{TableDef};
ghost use Rattle.salt_model.specs.Naming.{IsName, IsNaming};
ghost use Rattle.law_texts.specs.Twins.{AreTwins, IsOfAnyNames, IsOfAnySize, IsOfSharedNames, keyed, long_name, named, opened, whole};

/// Of a number of more than 64 digits the last 64 are printed.
pub fn wide_numbers_have_twins()
    ensures { (schema : List TableDef) → IsNaming schema → AreTwins IsOfAnySize schema (opened (10 ^ 64)) (opened (2 * 10 ^ 64)) }
{}

/// So of a value that is a number.
pub fn wide_values_have_twins()
    ensures { (schema : List TableDef) → IsNaming schema → 0 < length schema
        → AreTwins IsOfAnySize schema (keyed (10 ^ 64)) (keyed (2 * 10 ^ 64)) }
{}

/// Where two tables have one name, a lock does not tell which it is on.
pub fn doubled_names_have_twins()
    ensures { (d : TableDef) → IsName d.name → AreTwins IsOfSharedNames (d ∷ d ∷ []) (whole 0 ∷ []) (whole 1 ∷ []) }
{}

/// Where the name of a table is no name, it may hold the ends of lines.
pub fn other_names_have_twins()
    ensures { AreTwins IsOfAnyNames (named (codes "t") ∷ named long_name ∷ []) (whole 0 ∷ whole 0 ∷ []) (whole 1 ∷ []) }
{}
