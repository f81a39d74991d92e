//! Facts about the definitions, each the contract of a function that does nothing.

ghost use Rattle.song_chart.specs.Laws.{ColumnsAreTheCalls, ColumnsAreFilled, ColumnsAreFew, MeansAreLow, HeightsFit};
ghost use Rattle.song_chart.specs.Laws.{DearestIsMarked};
ghost use Rattle.song_chart.specs.WorkedColumns.{CallsAreWorked, ColumnsAreWorked, CyclesAreWorked, ScaleIsWorked};
ghost use Rattle.song_chart.specs.WorkedColumns.{PlacesAreWorked};
ghost use Rattle.song_chart.specs.WorkedPictures.{ElementsAreWorked, PathsAreWorked, MarksAreWorked, TurnsAreWorked};
ghost use Rattle.song_chart.specs.WorkedPictures.{WholePictureIsWorked};

/// Each call is in one column, in order; no column is empty, and there are at most 800; none is higher than the plot, and a
/// mean is at most the greatest. Where there are calls the first of the dearest is marked.
pub fn columns_are_the_calls()
    ensures calls { ColumnsAreTheCalls }
    ensures filled { ColumnsAreFilled }
    ensures few { ColumnsAreFew }
    ensures means { MeansAreLow }
    ensures heights { HeightsFit }
    ensures dearest { DearestIsMarked }
{}

/// Columns, what is shown of them, the scale, and where they lie, worked by hand.
pub fn worked_columns()
    ensures calls { CallsAreWorked }
    ensures columns { ColumnsAreWorked }
    ensures cycles { CyclesAreWorked }
    ensures scale { ScaleIsWorked }
    ensures places { PlacesAreWorked }
{}

/// Elements, paths, marks, and a whole picture, worked by hand.
pub fn worked_pictures()
    ensures elements { ElementsAreWorked }
    ensures paths { PathsAreWorked }
    ensures marks { MarksAreWorked }
    ensures turns { TurnsAreWorked }
    ensures whole { WholePictureIsWorked }
{}
