//! That calls succeed at the sizes that users have: the greatest worksheet, long plays.
mod desk;
mod plays;
mod wholes;
mod worksheets;
