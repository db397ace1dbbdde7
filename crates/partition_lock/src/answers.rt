// What each call of a partition comes to, as a store tells it.
mod clock;
mod reads;
mod streams;
mod votes;
