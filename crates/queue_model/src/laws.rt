//! Laws of the queue file, which the layers above cite. The functions do nothing.

ghost use Rattle.queue_model.specs.Laws.{StandsForOneList};

/// A file stands for one list of rows at most.
pub fn one_list_of_rows()
    ensures { StandsForOneList }
{}
