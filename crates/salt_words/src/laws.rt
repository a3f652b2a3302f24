//! What holds of the words of commands.

ghost use Rattle.salt_words.specs.Spelling.{SpellsSettings};
ghost use Rattle.salt_promise.specs.Words.{Given, all_given, begins_with_dash, command_said, folder_named, name_of};
ghost use Rattle.salt_promise.specs.declared.command.Setting.{Setting};
ghost use Rattle.std.specs.Prelude.{◌++◌, ◌∷◌, ◌↔◌, ◌≡◌, IsSome, List, Some, codes, false, ℕ};

/// What words give to settings is what they spell, and they spell it in one way only.
pub fn settings_are_spelled()
    ensures { (words : List (List ℕ)) (gs : List Given) → (all_given words ≡ Some gs) ↔ SpellsSettings words gs }
{}

/// The order of settings makes no difference.
pub fn settings_in_any_order()
    ensures command { (a b : List (List ℕ)) → IsSome (all_given a) → IsSome (all_given b) →
        command_said (codes "run" ∷ a ++ b) ≡ command_said (codes "run" ∷ b ++ a) }
    ensures folder { (a b : List (List ℕ)) → IsSome (all_given a) → IsSome (all_given b) →
        folder_named (codes "run" ∷ a ++ b) ≡ folder_named (codes "run" ∷ b ++ a) }
{}

/// A setting in one word says what it says in two.
pub fn settings_in_either_form()
    ensures command { (setting : Setting) (value : List ℕ) (before after : List (List ℕ)) → begins_with_dash value ≡ false →
        command_said (codes "run" ∷ before ++ name_of setting ∷ value ∷ after)
        ≡ command_said (codes "run" ∷ before ++ (name_of setting ++ codes "=" ++ value) ∷ after) }
    ensures folder { (setting : Setting) (value : List ℕ) (before after : List (List ℕ)) → begins_with_dash value ≡ false →
        folder_named (codes "run" ∷ before ++ name_of setting ∷ value ∷ after)
        ≡ folder_named (codes "run" ∷ before ++ (name_of setting ++ codes "=" ++ value) ∷ after) }
{}

/// Only words that say a command name a folder.
pub fn folders_are_of_commands()
    ensures { (words : List (List ℕ)) → IsSome (folder_named words) → IsSome (command_said words) }
{}
