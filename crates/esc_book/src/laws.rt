//! What holds of books. The function states it, and does nothing.

ghost use Rattle.esc_book.specs.Atom.{LiteralIsAtom};
ghost use Rattle.esc_book.specs.Book.{BookStays};

/// More terms leave a book as it is, and what expands to a literal is an atom.
pub fn book_laws()
    ensures stays { BookStays }
    ensures literal { LiteralIsAtom }
{}
