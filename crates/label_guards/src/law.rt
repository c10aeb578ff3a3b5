//! What holds of the classes of letters that a list of guards tells apart.

ghost use Rattle.label_guards.specs.ClassLeasts.{ClassesByLeasts, MoreClassesByLeasts};
ghost use Rattle.label_guards.specs.Classes.{ClassesAreDetermined, ClassesExcludeMore, OneClassUnderNone};

/// There are at most `most` classes, or there are more, and never both.
pub fn classes_exclude_more()
    ensures { ClassesExcludeMore }
{}

/// The classes and their order are determined: any two such lists have the same labels.
pub fn classes_are_determined()
    ensures { ClassesAreDetermined }
{}

/// Under an empty list all is alike: the one class is true everywhere.
pub fn one_class_under_none()
    ensures { OneClassUnderNone }
{}

/// The classes are those of the least valuations of what is alike, each in its place.
pub fn classes_by_leasts()
    ensures { ClassesByLeasts }
{}

/// Where there are more classes than `most`, there are more such valuations.
pub fn more_classes_by_leasts()
    ensures { MoreClassesByLeasts }
{}
