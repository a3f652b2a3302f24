//! Stories that are printable.

ghost use Rattle.salt_model.specs.Printable.{IsPrintableStory};
ghost use Rattle.law_texts.specs.Samples.{definition_story, null_story, schema};

/// Under the schema of one table a story of a row with NULL is printable, and one of definitions.
pub fn samples_are_printable()
    ensures rows { IsPrintableStory schema null_story }
    ensures definitions { IsPrintableStory schema definition_story }
{}
