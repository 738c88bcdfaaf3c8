//! What follows from the definitions alone, stated as contracts of functions that do nothing.

ghost use Rattle.std.specs.Prelude.{◌≡◌, ◌↔◌, ℕ, true, List, Ok};
ghost use Rattle.dax_script.specs.declared.scripts.Script.{Script};
ghost use Rattle.dax_script.specs.Fits.{fits};
ghost use Rattle.dax_script.specs.ScriptText.{script_of};

/// A script keeps the limits of scripts exactly if some text is that script.
pub fn fits_is_what_texts_give()
    ensures { (s : Script) → (fits s ≡ true) ↔ ((text : List ℕ) × (script_of text ≡ Ok s)) }
{}
