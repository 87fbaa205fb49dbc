//! Worked examples, by their events: what is reported, what is to be done with the children, and what the worksheet and the disk have then.
//! Also what crashes and failing disks leave of them.
mod desk;
mod events;
mod failing;
mod groups;
mod hosts;
mod lives;
mod moments;
mod reported;
mod scripts;
mod sizes;
mod stories;
mod turns;
mod wholes;
