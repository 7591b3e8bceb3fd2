mod cases;
mod cuts;
mod days;
mod ends;
mod failing;
mod opening;
mod rooms;
