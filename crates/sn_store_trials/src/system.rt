//! The adapters over a file that can't be synced, and over a reader and a writer that go by small pieces and are interrupted.

mod files;
mod streams;
