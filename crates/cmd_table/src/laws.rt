//! Laws of the table, each the contract of a function that does nothing.
ghost use Rattle.std.specs.Prelude.{◌≡◌, ℕ, List, Some, IsTrue};
ghost use Rattle.std.specs.Str.{str_to_ascii_lowercase};
ghost use Rattle.kv_types.specs.declared.command_name.CommandName.{CommandName};
ghost use Rattle.kv_types.specs.CommandName.{text, is_named};
ghost use Rattle.cmd_table.specs.Row.{if_served, command_named};

/// A word that is the name of a command, in any ASCII case, finds this command where it is served, and none where it is not: no
/// command is left out, and no two have one name. And a word that finds a command is its whole name.
pub fn every_command_is_found()
    ensures found { (command : CommandName) (word : List ℕ) → IsTrue (is_named (text command) word) → command_named word ≡ if_served (Some command) }
    ensures named { (command : CommandName) (word : List ℕ) → command_named word ≡ Some command → str_to_ascii_lowercase word ≡ text command }
{}
