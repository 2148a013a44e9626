//! What books are asked, and how what they tell is compared. Messages have a module of their own.

mod asking;
mod by_chance;
mod calls;
mod levels;
mod market_orders;
mod messages;
mod plain_book;
mod snapshots;
mod tally;
mod two_books;
mod worked_rows;
