//! Laws over the definitions: the functions do nothing, the contract of each is a law.
ghost use Rattle.fsd_forest.specs.Laws.{LeavesBecome, Widens, Rises, FollowsChange, Remains, TreesBecome, TreesGrow, TreesShrink, TreesAreLow};
ghost use Rattle.fsd_forest.specs.Parts.{LeavesPart, LeavesJoin, InteriorsPart, InteriorsJoin, ChildrenPart};
ghost use Rattle.fsd_forest.specs.Steps.{StepsUp, PageStepsUp, SidesStay, PageSidesStay};
ghost use Rattle.fsd_forest.specs.Ways.{DividesChildren, ChildrenEnd, ChildrenBegin, ChildrenAround, ChildAt, KeyInside};

/// A page is parted in two at a key, and two pages side by side are joined to one:
/// the same entries, and the same children.
pub fn pages_part_and_join()
    ensures leaves_part { LeavesPart }
    ensures leaves_join { LeavesJoin }
    ensures interiors_part { InteriorsPart }
    ensures interiors_join { InteriorsJoin }
    ensures children { ChildrenPart }
{}

/// What becomes of subtrees that stand side by side: of leaves, with what stands on both sides, one level up, of one
/// change behind another, and of pages that stay as they were.
pub fn forests_follow()
    ensures leaves_become { LeavesBecome }
    ensures widens { Widens }
    ensures rises { Rises }
    ensures follows { FollowsChange }
    ensures remains { Remains }
{}

/// What becomes of a whole table: its height stays, grows where page 0 is parted and shrinks where page 0 has one
/// child, and it is never too high for its pages.
pub fn trees_follow()
    ensures trees_become { TreesBecome }
    ensures trees_grow { TreesGrow }
    ensures trees_shrink { TreesShrink }
    ensures trees_are_low { TreesAreLow }
{}

/// The children of an interior page around a key: those that end up to it, the child that it is inside,
/// and those that begin behind it.
pub fn ways_lead()
    ensures divides { DividesChildren }
    ensures end { ChildrenEnd }
    ensures begin { ChildrenBegin }
    ensures around { ChildrenAround }
    ensures at { ChildAt }
    ensures inside { KeyInside }
{}

/// Where children around a key are changed and those on both sides stay, so are the pages above them.
pub fn pages_step_up()
    ensures steps_up { StepsUp }
    ensures page_steps_up { PageStepsUp }
    ensures sides_stay { SidesStay }
    ensures page_sides_stay { PageSidesStay }
{}
