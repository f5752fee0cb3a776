// What the choice promises: each function's contract is a theorem, and its body says nothing more.
ghost use Rattle.benefit.specs.Promises.{
  LessAndLess,
  ChosenWell,
  ChosenWellAgainst,
  TwoSaveThreeQuarters,
  SixtyThreeInAHundred,
  ChosenThere,
  BestSavesMost,
  FinestSavesNothing,
};
ghost use Rattle.benefit.specs.Examples.{Worked};

/// A table more never saves less, and the more there are, the less one more saves.
pub fn less_and_less()
    ensures { LessAndLess }
{}

/// The n chosen save at least the share 1 - (1 - 1/n)^n of what any other n save.
pub fn chosen_well()
    ensures { ChosenWell }
{}

/// And i chosen against any number of others.
pub fn chosen_well_against()
    ensures { ChosenWellAgainst }
{}

/// Two chosen save three quarters of what any other two save.
pub fn two_save_three_quarters()
    ensures { TwoSaveThreeQuarters }
{}

/// Any n chosen save 63 in a hundred of what any other n save.
pub fn sixty_three_in_a_hundred()
    ensures { SixtyThreeInAHundred }
{}

/// What is chosen is there, and there are n.
pub fn chosen_there()
    ensures { ChosenThere }
{}

/// At each turn no levels save more together with those taken before.
pub fn best_saves_most()
    ensures { BestSavesMost }
{}

/// The finest table, kept again, saves nothing.
pub fn finest_saves_nothing()
    ensures { FinestSavesNothing }
{}

/// The worked example comes out as said.
pub fn worked_examples()
    ensures { Worked }
{}
