// Sources of these tests alone.

/// Sites with nothing before them, with a read before them in their item, behind an item that destroys, and behind a
/// `malloc`. The sites are those of lines 5, 6 (the load and the assertion), 8 and 11.
pub(crate) const NEAR_READS: &[u8] = b"int g;
int a[4];
int main(void) {
  int i = 0;
  assert(i == 0);
  assert(a[i]);
  g = 1;
  assert(i);
  g = 2;
  int *q = malloc(sizeof(int));
  assert(1);
  return 0;
}";

/// An assertion two calls below a read, and two locks with a read before the first. The sites are those of lines 4, 12
/// and 13.
pub(crate) const TWICE_CALLED: &[u8] = b"pthread_mutex_t m;
int g;
void inner(int v) {
  assert(v);
}
void outer(int v) {
  inner(v);
}
int main(void) {
  int x = g;
  outer(x);
  pthread_mutex_lock(&m);
  pthread_mutex_lock(&m);
  return 0;
}";
